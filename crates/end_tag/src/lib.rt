// End tags outside Literal content: the statement of a property is written, and a node is handed to the property around it.
#![tactic(auto)]

ghost use Rattle.std.specs.Prelude.{◌≡◌, List, ℕ, ◌+◌, ◌-◌, ◌≤◌, ◌<◌};
ghost use Rattle.spec.specs.NTriples.{write};
ghost use Rattle.spec.specs.Pyx.{closing};
ghost use Rattle.state_stack.specs.Calls.{top_frame};
ghost use Rattle.state_stack.specs.Take.{main_size};
ghost use Rattle.writer.specs.Said.{Says};
ghost use Rattle.end_tag.specs.Object.{property_lines, literal_lines};
ghost use Rattle.event.specs.Result.{Asks, Handles};
ghost use Rattle.end_tag.specs.Ends.{Ends};
ghost use Rattle.end_tag.specs.Kinds.{Silent, Whole};
ghost use Rattle.end_tag.specs.Node.{StoredAfter};

pub mod statements;

use copy::words::wide;
use event::Done;
use label::BlankNodeIdGenerator;
use spec::Refusal;
use state::Registers;
use state_words::{Frame, Kind};

// An end tag. Where no element is open, or the name as written is another, it is refused.
pub fn end_outside(
    r: Registers,
    frames: &mut [u32],
    bindings: &[u32],
    inners: &[u32],
    work: &mut [u8],
    name: &[u8],
    out: &mut [u8],
) -> Result<Done, Refusal>
    requires { Asks r frames.old bindings.now inners.now work.old × (r.counts.inner ≡ 0) }
    ensures { Handles (closing name.now) r result frames.old bindings.now inners.now work.old out.old frames.new bindings.now inners.now work.new out.new }
{
    let Some(own) = state_inner::name(r, frames, inners) else {
        return Err(Refusal::NotWellFormed);
    };
    if !copy::equal(name, copy::piece(work, own.at, own.len)) {
        return Err(Refusal::NotWellFormed);
    }
    end_state(r, frames, work, out)
}

// The end tag of the element on top, by its kind.
fn end_state(
    r: Registers,
    frames: &mut [u32],
    work: &mut [u8],
    out: &mut [u8],
) -> Result<Done, Refusal>
    requires { Whole r frames.old work.old }
    ensures { Ends (top_frame r frames.old).kind r result frames.old work.old out.old frames.new work.new out.new }
{
    let f = state_stack::top(r, frames);
    let kind = f.kind;
    match kind {
        Kind::Rdf => end_silent(r, frames),
        Kind::NodeElt => end_node(r, frames, work),
        Kind::PropertyElt => end_property(r, frames, work, out),
        Kind::ParseTypeCollectionPropertyElt => end_collection(r, frames, work, out),
        Kind::ParseTypeLiteralPropertyElt => end_literal(r, frames, work, out),
        Kind::ParseTypeOtherPropertyElt => end_silent(r, frames),
        Kind::Wrapper => end_wrapper(r, frames),
    }
}

// The element is gone, and that is all.
fn end_silent(r: Registers, frames: &[u32]) -> Result<Done, Refusal>
    ensures { (q : Kind) (w out : List ℕ) → Silent q (top_frame r frames.now) → Ends q r result frames.now w out frames.now w out }
{
    let behind = state_stack::pop(r, frames).unwrap_or(r);
    if !state_inner::holds_no_more(behind) {
        return Err(Refusal::OverLimit);
    }
    Ok(Done {
        written: 0,
        registers: behind,
    })
}

// The wrapper has had its rdf:RDF, or 19.
fn end_wrapper(r: Registers, frames: &[u32]) -> Result<Done, Refusal>
    ensures { (w out : List ℕ) → Ends Kind.Wrapper r result frames.now w out frames.now w out }
{
    let f = state_stack::top(r, frames);
    let has = f.has;
    if has[Frame::COUNT] == 0 {
        return Err(Refusal::ProfileBroken);
    }
    end_silent(r, frames)
}

// The property around the node gets it. What is then held is judged first: a child of a Collection takes 4 bytes more.
fn end_node(r: Registers, frames: &mut [u32], work: &mut [u8]) -> Result<Done, Refusal>
    ensures { (out : List ℕ) → Ends Kind.NodeElt r result frames.old work.old out frames.new work.new out }
{
    let stored = stored_after(r, frames);
    let held = stored.saturating_sub(r.store.noted);
    if held > Registers::MOST_HELD {
        return Err(Refusal::OverLimit);
    }
    let behind = state_stack::nodes::close_node(r, frames, work).unwrap_or(r);
    Ok(Done {
        written: 0,
        registers: behind,
    })
}

// The object so far, or the empty literal; the language in force is that inside the element.
fn end_property(r: Registers, frames: &[u32], work: &[u8], out: &mut [u8]) -> Result<Done, Refusal>
    ensures { Ends Kind.PropertyElt r result frames.now work.now out.old frames.now work.now out.new }
{
    let f = state_stack::top(r, frames);
    let behind = state_stack::pop(r, frames).unwrap_or(r);
    let n = state_stack::top(behind, frames);
    let language = state_inner::language_in_force(r, frames);
    if !state_inner::holds_no_more(behind) {
        return Err(Refusal::OverLimit);
    }
    let written = say_property(out, n, f, state::bytes_found(language, work), work)?;
    Ok(Done {
        written,
        registers: behind,
    })
}

// Its statement, if all of it has room: measured first, unless that is sure. `tag` is the language in force.
fn say_property<'a>(
    out: &mut [u8],
    n: Frame,
    f: Frame,
    tag: &'a [u8],
    work: &'a [u8],
) -> Result<usize, Refusal>
    ensures { Says out.old out.new (write (property_lines n f tag.now work.now)) result }
{
    if crate::statements::property_fits(out.len(), n, f, tag) {
        let written = crate::statements::property_lines(out, true, n, f, tag, work);
        return Ok(written);
    }
    if out.len() < crate::statements::property_lines(out, false, n, f, tag, work) {
        return Err(Refusal::NoRoom);
    }
    let written = crate::statements::property_lines(out, true, n, f, tag, work);
    Ok(written)
}

// An XML literal has some text.
fn end_literal(r: Registers, frames: &[u32], work: &[u8], out: &mut [u8]) -> Result<Done, Refusal>
    ensures { Ends Kind.ParseTypeLiteralPropertyElt r result frames.now work.now out.old frames.now work.now out.new }
{
    let f = state_stack::top(r, frames);
    if crate::statements::tail_size(f, work) == 0 {
        return Err(Refusal::EmptyLiteral);
    }
    let behind = state_stack::pop(r, frames).unwrap_or(r);
    let n = state_stack::top(behind, frames);
    if !state_inner::holds_no_more(behind) {
        return Err(Refusal::OverLimit);
    }
    let written = say_literal(out, n, f, work)?;
    Ok(Done {
        written,
        registers: behind,
    })
}

// Its statement, in the same way. Two of a kind, of which each measures and writes its own lines: a trait of both would be longer.
fn say_literal(out: &mut [u8], n: Frame, f: Frame, work: &[u8]) -> Result<usize, Refusal>
    ensures { Says out.old out.new (write (literal_lines n f work.now)) result }
{
    if crate::statements::literal_fits(out.len(), n, f) {
        let written = crate::statements::literal_lines(out, true, n, f, work);
        return Ok(written);
    }
    if out.len() < crate::statements::literal_lines(out, false, n, f, work) {
        return Err(Refusal::NoRoom);
    }
    let written = crate::statements::literal_lines(out, true, n, f, work);
    Ok(written)
}

// Each child takes a label for its cell.
fn end_collection(
    r: Registers,
    frames: &[u32],
    work: &[u8],
    out: &mut [u8],
) -> Result<Done, Refusal>
    requires { Whole r frames.now work.now × ((top_frame r frames.now).kind ≡ Kind.ParseTypeCollectionPropertyElt) }
    ensures { Ends Kind.ParseTypeCollectionPropertyElt r result frames.now work.now out.old frames.now work.now out.new }
{
    let f = state_stack::top(r, frames);
    let has = f.has;
    let had = r.counts.labels;
    let labels = had + wide(has[Frame::COUNT]) as u64;
    if labels > BlankNodeIdGenerator::MOST_LABELS {
        return Err(Refusal::LabelsSpent);
    }
    let popped = state_stack::pop(r, frames).unwrap_or(r);
    let behind = state_stack::with_labels(popped, labels);
    let n = state_stack::top(behind, frames);
    if !state_inner::holds_no_more(behind) {
        return Err(Refusal::OverLimit);
    }
    if out.len() < crate::statements::collection_lines(out, false, n, f, had, work) {
        return Err(Refusal::NoRoom);
    }
    let written = crate::statements::collection_lines(out, true, n, f, had, work);
    Ok(Done {
        written,
        registers: behind,
    })
}

// The bytes that are stored once the node on top has closed.
fn stored_after(r: Registers, frames: &[u32]) -> usize
    ensures { StoredAfter r frames.now result }
{
    let n = state_stack::top(r, frames);
    let size = main_size(n);
    let behind = state_stack::pop(r, frames).unwrap_or(r);
    let f = state_stack::top(behind, frames);
    let at = f.at;
    if f.kind == Kind::PropertyElt {
        return wide(at[Frame::TAIL]) + size;
    }
    if f.kind == Kind::ParseTypeCollectionPropertyElt {
        return wide(at[Frame::END]) + size + 4;
    }
    behind.store.top
}

// The size of a node's subject.
fn main_size(n: Frame) -> usize
    ensures { (result ≡ main_size n) × (result < 4294967296) }
{
    let at = n.at;
    let from = wide(at[Frame::MAIN]);
    let to = wide(at[Frame::ID]);
    if to < from {
        return 0;
    }
    to - from
}
