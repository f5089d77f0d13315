// The attributes of a start tag, by the classes that crate start_names gives them: read in written order, the first of a role, the lengths of their names.
#![tactic(auto)]

ghost use Rattle.std.specs.Prelude.{◌≡◌, ◌++◌, ◌<◌, ◌≤◌, leb, length};
ghost use Rattle.spec.specs.Bytes.{every};
ghost use Rattle.spec.specs.Limits.{most_name_bytes};
ghost use Rattle.start_names.specs.Tag.{name_at, value_at};
ghost use Rattle.start_names.specs.Classes.{text_at};
ghost use Rattle.start_attributes.specs.Role.{role_is};
ghost use Rattle.start_attributes.specs.Judgment.{said};
ghost use Rattle.start_attributes.specs.Attributes.{known_by, role_at, check_by};
ghost use Rattle.start_attributes.specs.Places.{places};
ghost use Rattle.start_attributes.specs.Reads.{ReadsOne, Reads};
ghost use Rattle.start_attributes.specs.First.{first_in};
ghost use Rattle.start_attributes.specs.Short.{short_by, short_at};

pub mod roles;
pub mod vocabulary;

use crate::roles::Role;
use resolve::Resolved;
use spec::Refusal;
use start_names::{Class, XML};

// The kind of the classes whose names have an expanded name.
const EXPANDED: usize = 2;

// The attributes in written order, up to the first that something is wrong with: `classes` has their classes, `roles` gets their roles.
pub fn read_attributes(
    scratch: &[u8],
    spans: &[u32],
    k: usize,
    work: &[u8],
    classes: &[usize],
    roles: &mut [u8],
) -> Result<(), Refusal>
    requires { k ≤ length roles.old }
    ensures { Reads scratch.now spans.now work.now classes.now k roles.old roles.new result }
{
    for j in 0..k {
        read_attribute(scratch, spans, work, classes, roles, j)?;
    }
    Ok(())
}

// The first of the first k attributes that has the role, from `read_attributes`'s roles; k where none has, which start_tag keeps as such a place.
pub fn first_in(roles: &[u8], k: usize, role: Role) -> usize
    ensures { result ≡ first_in roles.now k (role_is role) }
{
    let word = u8::from(role);
    let within = copy::piece(roles, 0, k);
    for i in 0..within.len() {
        if within[i] == word {
            return i;
        }
    }
    within.len()
}

// Has each expanded name at most 1,024 bytes? `classes` has the attributes' classes.
pub fn names_short<'a>(
    scratch: &'a [u8],
    spans: &[u32],
    k: usize,
    work: &'a [u8],
    classes: &[usize],
) -> bool
    ensures { result ≡ every (short_at scratch.now spans.now work.now classes.now) (places 0 k) }
{
    for j in 0..k {
        let class = Class::load(classes, j);
        if !is_short(scratch, spans, work, class, j) {
            return false;
        }
    }
    true
}

// Attribute j: its role into `roles`, and what is wrong with it.
fn read_attribute(
    scratch: &[u8],
    spans: &[u32],
    work: &[u8],
    classes: &[usize],
    roles: &mut [u8],
    j: usize,
) -> Result<(), Refusal>
    requires { j < length roles.old }
    ensures { ReadsOne scratch.now spans.now work.now classes.now j roles.old roles.new result }
{
    let class = Class::load(classes, j);
    let role = role_at(scratch, spans, work, class, j);
    roles[j] = u8::from(role);
    judge_at(scratch, spans, class, role, j)
}

// The role of attribute j, which is of this class.
fn role_at(scratch: &[u8], spans: &[u32], work: &[u8], class: Class, j: usize) -> Role
    ensures { role_is result ≡ role_at scratch.now spans.now work.now class j }
{
    let name = start_names::name_of(scratch, spans, j);
    let local = start_names::local_of(scratch, spans, j);
    match class {
        Class::Declaration | Class::Unknown => Role::Nothing,
        Class::Unprefixed => crate::roles::role_of(name, name, b""),
        Class::Xml => crate::roles::role_of(name, &XML, local),
        Class::Own(at, n) => crate::roles::role_of(name, copy::piece(scratch, at, n), local),
        Class::Held(at, n) => crate::roles::role_of(name, copy::piece(work, at, n), local),
    }
}

// 8, then what is wrong in its role.
fn judge_at(
    scratch: &[u8],
    spans: &[u32],
    class: Class,
    role: Role,
    j: usize,
) -> Result<(), Refusal>
    ensures { said result tt ≡ check_by class (name_at scratch.now spans.now j) (role_is role) (value_at scratch.now spans.now j) }
{
    if !is_known(class, start_names::name_of(scratch, spans, j)) {
        return Err(Refusal::NoNamespace);
    }
    crate::roles::judge(role, start_names::value_of(scratch, spans, j))
}

// Has a name of this class a namespace, or does it need none?
fn is_known(class: Class, name: &[u8]) -> bool
    ensures { result ≡ known_by class name.now }
{
    match class {
        Class::Unknown => false,
        Class::Unprefixed => copy::begins(name, b"xml"),
        Class::Declaration | Class::Xml | Class::Own(_, _) | Class::Held(_, _) => true,
    }
}

// Is the expanded name of attribute j, where a name of this class has one, short enough?
fn is_short<'a>(scratch: &'a [u8], spans: &[u32], work: &'a [u8], class: Class, j: usize) -> bool
    ensures { result ≡ short_by class (text_at scratch.now spans.now work.now class j) }
{
    if class.kind() != EXPANDED {
        return true;
    }
    let space = start_names::space_of(class, scratch, work, &XML);
    fits(space, start_names::tail_of(class, scratch, spans, j))
}

// Have the two joined at most as many bytes as a resolved IRI may have?
#[tactic(auto, using(std::proofs::lemmas::Bool::Decides::nat_tests), unfolding(spec::specs::Limits::most_name_bytes))]
fn fits(front: &[u8], back: &[u8]) -> bool
    ensures { result ≡ leb (length (front.now ++ back.now)) most_name_bytes }
{
    front.len() <= Resolved::MOST_BYTES && back.len() <= Resolved::MOST_BYTES - front.len()
}
