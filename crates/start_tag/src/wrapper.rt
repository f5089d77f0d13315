// The wrapper of a packet, x:xmpmeta: is a start tag its, and what is wrong with it (document 02, request 1).
ghost use Rattle.std.specs.Prelude.{◌≡◌, not, ◌+◌, ◌-◌, ◌≤◌, leb, length, ◌++◌};
ghost use Rattle.spec.specs.Bytes.{every, same};
ghost use Rattle.spec.specs.Namespaces.{xml_name};
ghost use Rattle.spec.specs.Xmp.{wrapper_name};
ghost use Rattle.start_names.specs.Tag.{back_of};
ghost use Rattle.start_names.specs.Classes.{found_class, space_by};
ghost use Rattle.spec.specs.Limits.{most_attributes, most_held_bytes};
ghost use Rattle.start_attributes.specs.Places.{places};
ghost use Rattle.start_tag.specs.Wrapper.{known_at, wrapper_bytes, TellsWrapper, JudgesWrapper};

use spec::{Mode, Refusal};
use start_element::Source;
use start_names::{Class, Found, XML};
use start_plan::Start;
use state::{Registers, Store};

// Is this start tag the wrapper's? In the profile the root's can be. `found` tells its namespace; c is the place of its
// name's colon plus 1, or 0.
pub fn is_wrapper<'a>(
    mode: Mode,
    depth: usize,
    found: Found,
    name: &'a [u8],
    c: usize,
    scratch: &'a [u8],
    work: &'a [u8],
) -> bool
    ensures { TellsWrapper result mode depth found name.now c scratch.now work.now }
{
    if !mode.xmp {
        return false;
    }
    if depth != 0 {
        return false;
    }
    names_wrapper(found, name, c, scratch, work)
}

// Has it the wrapper's name? A function of its own, so that the two texts are made only where they are asked for.
fn names_wrapper<'a>(
    found: Found,
    name: &'a [u8],
    c: usize,
    scratch: &'a [u8],
    work: &'a [u8],
) -> bool
    ensures { result ≡ same (space_by scratch.now work.now xml_name (found_class found) ++ back_of c name.now) wrapper_name }
{
    start_names::same_joined(
        start_names::space_of(Class::from(found), scratch, work, &XML),
        start_names::back_of(name, c),
        b"adobe:ns:meta/",
        b"xmpmeta",
    )
}

// What its start tag comes to: its attributes are ignored, but for an unknown prefix (8) and the limit on names (7). Its name and its
// bindings are held (7).
pub fn judge_wrapper<'a>(
    r: Registers,
    scratch: &'a [u8],
    spans: &[u32],
    m: usize,
    k: usize,
    work: &'a [u8],
    classes: &[usize],
) -> Result<Start, Refusal>
    requires { (length scratch.now ≤ 65536) × (k ≤ most_attributes) }
    ensures { JudgesWrapper result r scratch.now spans.now m k work.now classes.now }
{
    if has_unknown(classes, k) {
        return Err(Refusal::NoNamespace);
    }
    if !start_attributes::names_short(scratch, spans, k, work, classes) {
        return Err(Refusal::OverLimit);
    }
    if !fits(r.store, scratch, spans, m, k) {
        return Err(Refusal::OverLimit);
    }
    let plan = start_plan::wrapper(r.counts.labels);
    Ok(Start {
        plan,
        li: false,
        id: Source::Missing,
        kind: Source::Missing,
        iri: Source::Missing,
        named: false,
        property: Source::Missing,
    })
}

// 7: held bytes, with its name and its bindings.
fn fits(store: Store, scratch: &[u8], spans: &[u32], m: usize, k: usize) -> bool
    requires { (length scratch.now ≤ 65536) × (k ≤ most_attributes) }
    ensures { result ≡ leb (store.top - store.noted + wrapper_bytes scratch.now spans.now m k) most_held_bytes }
{
    let held = store.top.saturating_sub(store.noted);
    if held > Registers::MOST_HELD {
        return false;
    }
    let n = copy::piece(scratch, 0, m).len() + start_element::declared_size(scratch, spans, k);
    n <= Registers::MOST_HELD - held
}

// Has one of the first k attributes an unknown prefix?
fn has_unknown(classes: &[usize], k: usize) -> bool
    ensures { result ≡ not (every (known_at classes.now) (places 0 k)) }
{
    for j in 0..k {
        if let Class::Unknown = Class::load(classes, j) {
            return true;
        }
    }
    false
}
