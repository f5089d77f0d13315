// An event decoded and handed to what it is: the Rust's parse_start_event, parse_text_event and parse_end_event.
ghost use Rattle.std.specs.Prelude.{◌≡◌, false, ◌≤◌, length, take};
ghost use Rattle.spec.specs.Limits.{most_held_bytes};
ghost use Rattle.spec.specs.Pyx.{opening, closing};
ghost use Rattle.pyx.specs.Decode.{unread};
ghost use Rattle.start_names.specs.Tag.{attributes_of};
ghost use Rattle.event.specs.Place.{place_at};
ghost use Rattle.event.specs.Result.{parsed, Handles};
ghost use Rattle.event.specs.Result as handler;
ghost use Rattle.event.specs.Progress.{lent, doc_in, Progresses, HandlesAll};
ghost use Rattle.reader.specs.Asked.{Asks, Roomy, Areas, Tagged};
ghost use Rattle.reader.specs.Tags.{is_literal};
ghost use Rattle.reader.specs.Dispatch.{with_ids};

use event::{Advance, Done, Place};
use pyx::Event;
use spec::Refusal;
use start_names::Class;
use state::Registers;
use state_ids::IdTable;

// The bytes of an event, in an open document. The last four are scratch.
pub fn parse_event(
    registers: Registers,
    count: usize,
    used: usize,
    frames: &mut [u32],
    bindings: &mut [u32],
    inners: &mut [u32],
    work: &mut [u8],
    places: &mut [u32; IdTable::MOST],
    sizes: &mut [u32; IdTable::MOST],
    ids: &mut [u8],
    event: &[u8],
    out: &mut [u8],
    scratch: &mut [u8],
    spans: &mut [u32],
    area: &mut [u8],
    classes: &mut [usize; Class::TABLE],
) -> Result<Advance, Refusal>
    requires { Asks registers count used (lent frames.old bindings.old inners.old work.old places.old sizes.old ids.old out.old) × Roomy scratch.old spans.old area.old × (unread event.now scratch.old ≡ false) }
    ensures { Progresses (parsed event.now (length out.old) (doc_in registers count (lent frames.old bindings.old inners.old work.old places.old sizes.old ids.old out.old))) result
        (lent frames.old bindings.old inners.old work.old places.old sizes.old ids.old out.old)
        (lent frames.new bindings.new inners.new work.new places.new sizes.new ids.new out.new)
        × Areas scratch.old spans.old area.old scratch.new spans.new area.new }
{
    let decoded = pyx::decode(event, scratch, spans);
    match decoded {
        Event::Malformed => Err(Refusal::NotPyx),
        // no answer for an event that is read
        Event::NoScratch => Err(Refusal::NotPyx),
        Event::Instruction => with_ids(text::unchanged(registers), count, used),
        Event::Text(m) => {
            let outcome = text::parse_text_event(
                registers,
                frames,
                bindings,
                inners,
                work,
                area,
                &scratch[..m],
            );
            with_ids(outcome, count, used)
        }
        Event::Closing(m) => {
            let outcome = parse_end_event(
                registers,
                frames,
                bindings,
                inners,
                work,
                area,
                &scratch[..m],
                out,
            );
            with_ids(outcome, count, used)
        }
        Event::Opening(m, c, k) => parse_start_event(
            registers, count, used, frames, bindings, inners, work, places, sizes, ids, scratch,
            spans, m, c, k, area, classes, out,
        ),
        Event::Crowded => {
            let why = start_form::crowded::refusal(
                registers, frames, bindings, work, event, scratch,
            );
            Err(why)
        }
    }
}

// A start tag as decoded, by whether it stands in Literal content. Never inlined, so that the loop over events takes in the other events:
// where it did not, the program executed a third more.
#[inline(never)]
fn parse_start_event(
    r: Registers,
    count: usize,
    used: usize,
    frames: &mut [u32],
    bindings: &mut [u32],
    inners: &mut [u32],
    work: &mut [u8],
    places: &mut [u32; IdTable::MOST],
    sizes: &mut [u32; IdTable::MOST],
    ids: &mut [u8],
    scratch: &[u8],
    spans: &[u32],
    m: usize,
    c: usize,
    k: usize,
    area: &mut [u8],
    classes: &mut [usize; Class::TABLE],
    out: &mut [u8],
) -> Result<Advance, Refusal>
    requires { Asks r count used (lent frames.old bindings.old inners.old work.old places.old sizes.old ids.old out.old) × Tagged scratch.now spans.now m c k area.old }
    ensures { HandlesAll (opening (take m scratch.now) (attributes_of scratch.now spans.now k)) r count result
        (lent frames.old bindings.old inners.old work.old places.old sizes.old ids.old out.old)
        (lent frames.new bindings.new inners.new work.new places.new sizes.new ids.new out.new)
        × (length area.new ≡ length area.old) }
{
    if stands_in_literal(r, frames) {
        let outcome = literal::start_inside(
            r, frames, bindings, inners, work, scratch, spans, m, c, k, area,
        );
        return with_ids(outcome, count, used);
    }
    start_tag::start_outside(
        r, count, used, frames, bindings, inners, work, places, sizes, ids, scratch, spans, m, c,
        k, area, classes, out,
    )
}

// An end tag: of an element open inside Literal content, or of any other.
fn parse_end_event(
    r: Registers,
    frames: &mut [u32],
    bindings: &[u32],
    inners: &[u32],
    work: &mut [u8],
    area: &mut [u8],
    name: &[u8],
    out: &mut [u8],
) -> Result<Done, Refusal>
    requires { handler.Asks r frames.old bindings.now inners.now work.old × (most_held_bytes ≤ length area.old) }
    ensures { Handles (closing name.now) r result frames.old bindings.now inners.now work.old out.old frames.new bindings.now inners.now work.new out.new }
{
    if r.counts.inner > 0 {
        return literal::end_inside(r, frames, bindings, inners, work, area, name);
    }
    end_tag::end_outside(r, frames, bindings, inners, work, name, out)
}

// Does an event stand in Literal content?
fn stands_in_literal(r: Registers, frames: &[u32]) -> bool
    ensures { result ≡ is_literal (place_at r frames.now) }
{
    let place = event::place_at(r, frames);
    match place {
        Place::Outside => false,
        Place::Nodes => false,
        Place::Properties => false,
        Place::NodesOrText => false,
        Place::Xml => true,
    }
}

// What an event that enters no rdf:ID has done.
fn with_ids(outcome: Result<Done, Refusal>, count: usize, used: usize) -> Result<Advance, Refusal>
    ensures { result ≡ with_ids outcome count used }
{
    let done = outcome?;
    Ok(Advance {
        written: done.written,
        registers: done.registers,
        count,
        used,
    })
}
