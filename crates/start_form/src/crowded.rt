// Start tags with more attributes than an element may have. They are refused, but 6 comes before 7: so all of their attributes are looked at.
ghost use Rattle.std.specs.Prelude.{◌≡◌, ◌≤◌};
ghost use Rattle.spec.specs.Namespaces.{repeats_written};
ghost use Rattle.start_names.specs.Tag.{attributes_of, Splits};
ghost use Rattle.start_form.specs.Own.{Within, Finds};
ghost use Rattle.start_form.specs.CrowdedForm.{is_second, is_xml_at, Repeats, Forms};
ghost use Rattle.start_form.specs.Crowd.{Crowd, count_of, Refuses};

use event::Place;
use pyx::Event;
use spec::Refusal;
use start_names::Class;
use state::Registers;

// The attributes of an event are at most so many: each has a line of four bytes or more.
pub const PLACES: usize = Event::MOST_BYTES / 4;

// Up to so many attributes each is compared with each: that costs less than it takes to mark them.
const FEW: usize = 128;

// Why such a start tag is refused.
pub fn refusal(
    r: Registers,
    frames: &[u32],
    bindings: &[u32],
    work: &[u8],
    event: &[u8],
    scratch: &mut [u8],
) -> Refusal
    requires { Crowd event.now scratch.old }
    ensures { Refuses result event.now r frames.now bindings.now work.now }
{
    let mut spans = [0u32; PLACES * 4];
    let decoded = pyx::decode(event, scratch, &mut spans);
    let k = count(decoded);
    if is_well_formed(r, frames, bindings, work, scratch, &spans, k) {
        return Refusal::OverLimit;
    }
    Refusal::NotWellFormed
}

// How many attributes a decoded start tag has.
fn count(decoded: Event) -> usize
    ensures { result ≡ count_of decoded }
{
    match decoded {
        Event::Malformed => 0,
        Event::NoScratch => 0,
        Event::Instruction => 0,
        Event::Text(_) => 0,
        Event::Closing(_) => 0,
        Event::Opening(_, _, k) => k,
        Event::Crowded => 0,
    }
}

// What 6 asks: no second root, no illegal xmlns, no repeated attribute.
fn is_well_formed<'a>(
    r: Registers,
    frames: &[u32],
    bindings: &[u32],
    work: &'a [u8],
    scratch: &'a [u8],
    spans: &[u32],
    k: usize,
) -> bool
    requires { Splits scratch.now spans.now k × Within spans.now k × (k ≤ 8_192) }
    ensures { Forms result r frames.now bindings.now work.now scratch.now spans.now k }
{
    if is_second_root(r) {
        return false;
    }
    if !start_names::all_legal(scratch, spans, k) {
        return false;
    }
    !repeats(r, frames, bindings, work, scratch, spans, k)
}

fn is_second_root(r: Registers) -> bool
    ensures { result ≡ is_second r }
{
    r.flags.rooted & (r.counts.depth == 0) & (r.counts.inner == 0)
}

// Do two attributes repeat: as written in Literal content, else by expanded name?
fn repeats<'a>(
    r: Registers,
    frames: &[u32],
    bindings: &[u32],
    work: &'a [u8],
    scratch: &'a [u8],
    spans: &[u32],
    k: usize,
) -> bool
    requires { Splits scratch.now spans.now k × Within spans.now k × (k ≤ 8_192) }
    ensures { Repeats result r frames.now bindings.now work.now scratch.now spans.now k }
{
    let place = event::place_at(r, frames);
    if is_xml(place) {
        return repeats_written(scratch, spans, k);
    }
    repeats_expanded(r, bindings, work, scratch, spans, k)
}

// By name as written; where there are few, each is compared with each.
fn repeats_written(scratch: &[u8], spans: &[u32], k: usize) -> bool
    requires { k ≤ 8_192 }
    ensures { result ≡ repeats_written (attributes_of scratch.now spans.now k) }
{
    if k <= FEW {
        return start_names::repeated_written(scratch, spans, k);
    }
    let classes = [0usize; PLACES * Class::WORDS];
    crate::marks::repeated(scratch, spans, k, scratch, &classes)
}

// By expanded name, likewise.
fn repeats_expanded<'a>(
    r: Registers,
    bindings: &[u32],
    work: &'a [u8],
    scratch: &'a [u8],
    spans: &[u32],
    k: usize,
) -> bool
    requires { Within spans.now k × (k ≤ 8_192) }
    ensures { Finds scratch.now spans.now k work.now bindings.now r.counts.bindings result }
{
    if FEW < k {
        return crate::own::repeated_expanded(scratch, spans, k, work, bindings, r.counts.bindings);
    }
    let mut classes = [0usize; FEW * Class::WORDS];
    start_names::classify(
        scratch,
        spans,
        k,
        work,
        bindings,
        r.counts.bindings,
        &mut classes,
    );
    start_names::repeated_expanded(scratch, spans, k, work, &classes)
}

// Is that place in Literal content?
fn is_xml(place: Place) -> bool
    ensures { result ≡ is_xml_at place }
{
    match place {
        Place::Outside | Place::Nodes | Place::Properties | Place::NodesOrText => false,
        Place::Xml => true,
    }
}
