// RFC 3986, section 5.2: a reference resolved on a base, into a lent area. Every call answers on any bytes: whether they are IRIs is asked elsewhere.
#![tactic(auto)]

ghost use Rattle.std.specs.Prelude.{◌≡◌, ◌-◌, ◌≤◌, leb, length, drop};
ghost use Rattle.spec.specs.Bytes.{Bytes};
ghost use Rattle.spec.specs.Rfc3986.{remove_dot_segments};
ghost use Rattle.resolve.specs.Output.{Within};
ghost use Rattle.resolve.specs.Target.{Aimed, front_of, merged_of};
ghost use Rattle.resolve.specs.Resolve.{Fronted, Made, Pathed, Recomposed, Resolves, formed, need, needed};

mod parts;
mod path;
mod target;

use path::Output;
use target::Target;

// A resolved reference: how many bytes it has at the front of the area.
#[derive(Clone, Copy, Debug, PartialEq, Eq)]
pub struct Resolved {
    pub len: usize,
}

// Why a reference is not resolved.
#[derive(Clone, Copy, Debug, PartialEq, Eq)]
pub enum ResolveError {
    // It has no authority and a path that begins `//`, for which there is no form.
    NoForm,
    // It has more than `MOST_BYTES`.
    TooLong,
    // The area is too short to work in, and is left as it was.
    NoArea,
}

impl Resolved {
    // Any expanded name, IRI or base, in bytes.
    pub const MOST_BYTES: usize = 1_024;
    // An area of so many bytes is enough for every base and reference: one that is too long by a byte, and two of its path, by which it is
    // told whether that begins `//`.
    pub const AREA: usize = Self::MOST_BYTES + 3;
}

// `reference` on `base`. The area has to have one byte more than the two together, or `AREA` bytes.
pub fn resolve(base: &[u8], reference: &[u8], area: &mut [u8]) -> Result<Resolved, ResolveError>
    ensures { Resolves base.now reference.now area.old area.new result }
{
    if !has_room(base.len(), reference.len(), area.len()) {
        return Err(ResolveError::NoArea);
    }
    let target = target::transform(base, reference);
    let from = put_front(base, reference, target, area);
    let out = put_path(base, reference, target, from, area);
    recompose(reference, target, from, out, area)
}

fn has_room(base: usize, reference: usize, area: usize) -> bool
    ensures { result ≡ leb (needed base reference) area }
{
    if Resolved::AREA <= area {
        return true;
    }
    if area < base {
        return false;
    }
    reference < area - base
}

// What stands before the path, if it is not too long. The answer is where the path begins.
fn put_front(base: &[u8], reference: &[u8], target: Target, area: &mut [u8]) -> usize
    requires { Aimed base.now reference.now target × (need base.now reference.now ≤ length area.old) }
    ensures { Fronted area.old (front_of base.now reference.now target) area.new result }
{
    let front = target.front;
    let own = target.own;
    let from = front + own;
    if Resolved::MOST_BYTES < from {
        return Resolved::MOST_BYTES + 1;
    }
    copy::put(area, 0, &base[..front]);
    copy::put(area, front, &reference[..own]);
    from
}

// The path, its dot segments removed on the way: what the base gives of it, and what the reference does.
fn put_path(base: &[u8], reference: &[u8], target: Target, from: usize, area: &mut [u8]) -> Output
    requires { Aimed base.now reference.now target × (from ≤ length area.old) }
    ensures { Pathed area.old from (remove_dot_segments (merged_of base.now reference.now target)) area.new result }
{
    let front = target.front;
    let own = target.own;
    let path = target.path;
    let empty = Output {
        end: from,
        beyond: 0,
        begun: false,
    };
    match target.lead {
        None => path::output_path(&reference[own..path], false, from, empty, area),
        Some(lead) => {
            let led = path::output_path(&base[front..lead], true, from, empty, area);
            path::output_path(&reference[own..path], false, from, led, area)
        }
    }
}

// The reference's query and fragment come behind the path, if there is a form for the whole and it is not too long.
fn recompose(
    reference: &[u8],
    target: Target,
    from: usize,
    out: Output,
    area: &mut [u8],
) -> Result<Resolved, ResolveError>
    requires { (target.path ≤ length reference.now) × Within area.old from out }
    ensures { (front path : Bytes) → Made area.old from out (length reference.now - target.path) front path
        → Recomposed target.authority front path (drop target.path reference.now) area.old area.new result }
{
    let end = out.end;
    let path = target.path;
    if !has_form(&area[from..end], out.beyond, target.authority) {
        return Err(ResolveError::NoForm);
    }
    if 0 < out.beyond {
        return Err(ResolveError::TooLong);
    }
    let rest = reference.len() - path;
    if Resolved::MOST_BYTES < end + rest {
        return Err(ResolveError::TooLong);
    }
    copy::put(area, end, &reference[path..]);
    Ok(Resolved { len: end + rest })
}

// Where there is no authority, the path cannot begin with `//` (section 3.3). A segment that has no room behind "/" begins with one, too.
fn has_form(path: &[u8], beyond: usize, authority: bool) -> bool
    ensures { result ≡ formed authority path.now beyond }
{
    if authority {
        return true;
    }
    if (0 < beyond) & copy::equal(b"/", path) {
        return false;
    }
    !copy::begins(path, b"//")
}
