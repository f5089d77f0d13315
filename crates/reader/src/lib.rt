// The three calls. What is kept of a document between them goes in and comes back by value; the stores are lent.
#![tactic(auto)]

ghost use Rattle.std.specs.Prelude.{◌≡◌, is_some, length};
ghost use Rattle.reader_contract.specs.Meaning.{text_of, lawful_parts};
ghost use Rattle.reader_contract.specs.Meets.{Starts, Steps, Finishes};
ghost use Rattle.reader.specs.Starting.{Judges, Begins};

pub mod feeding;
pub mod parser;
pub mod stream;

use crate::stream::Taken;
use reader_contract::{Report, State};
use resolve::Resolved;
use spec::{Mode, Refusal};
use start_names::Class;
use state::Registers;
use state_ids::IdTable;

// A document begins in this mode, with a start base or without. The ID store is emptied by a fresh table.
pub fn start(state: State, mode: Mode, base: Option<&[u8]>, work: &mut [u8], ids: &[u8]) -> Report
    ensures { Starts mode (is_some base.entry) (text_of base.entry) state work.old ids.now result work.new }
{
    let begun = begin(mode, base, work, ids);
    match begun {
        Err(why) => Report::refused(state, why),
        Ok(_) => Report::done(State::fresh(mode, base.is_some(), text_of(base).len())),
    }
}

// The same for a program that keeps tables of its own: the base at the front of the work store, and the registers
// of the document that begins.
pub fn begin(
    mode: Mode,
    base: Option<&[u8]>,
    work: &mut [u8],
    ids: &[u8],
) -> Result<Registers, Refusal>
    ensures { Begins mode (is_some base.entry) (text_of base.entry) work.old ids.now result work.new }
{
    let lengths = (work.len() == Registers::STORE) & (ids.len() == IdTable::BYTES);
    may_start(lengths, base)?;
    let text = text_of(base);
    copy::put(work, 0, text);
    Ok(Registers::started(mode, base.is_some(), text.len()))
}

// The first event of the input, which is what is left of it; `last` where no more follows. Its lines go to the front of `out`.
pub fn step(
    state: State,
    work: &mut [u8],
    ids: &mut [u8],
    input: &[u8],
    last: bool,
    out: &mut [u8],
) -> Report
    ensures { Steps last input.now state work.old ids.old out.old result work.new ids.new out.new }
{
    let registers = state.registers;
    let mut frames = state.frames;
    let mut bindings = state.bindings;
    let mut inners = state.inners;
    let table = state.ids;
    let mut at = table.at;
    let mut len = table.len;
    if !is_lawful(
        registers,
        &frames,
        &bindings,
        &inners,
        work,
        table.count,
        table.used,
        &at,
        &len,
        ids,
    ) {
        return Report::refused(state, Refusal::BadState);
    }
    if registers.flags.closed {
        return Report::refused(state, Refusal::Closed);
    }
    let mut scratch = [0u8; Taken::SCRATCH];
    let mut spans = [0u32; Taken::SPANS];
    let mut area = [0u8; Taken::AREA];
    let mut classes = [0usize; Class::TABLE];
    let taken = crate::stream::core(
        registers,
        table.count,
        table.used,
        &mut frames,
        &mut bindings,
        &mut inners,
        work,
        &mut at,
        &mut len,
        ids,
        input,
        last,
        out,
        &mut scratch,
        &mut spans,
        &mut area,
        &mut classes,
    );
    match taken {
        Err(why) => Report::refused(state.marked(why), why),
        Ok(t) => Report::accepted(t.consumed, t.behind, frames, bindings, inners, at, len),
    }
}

// The document is over.
pub fn finish(state: State, work: &[u8], ids: &[u8]) -> Report
    ensures { Finishes state work.now ids.now result }
{
    let registers = state.registers;
    let frames = state.frames;
    let bindings = state.bindings;
    let inners = state.inners;
    let table = state.ids;
    let at = table.at;
    let len = table.len;
    if !is_lawful(
        registers,
        &frames,
        &bindings,
        &inners,
        work,
        table.count,
        table.used,
        &at,
        &len,
        ids,
    ) {
        return Report::refused(state, Refusal::BadState);
    }
    if registers.flags.closed {
        return Report::refused(state, Refusal::Closed);
    }
    if !reader_contract::may_finish(registers) {
        return Report::refused(state.closed(), Refusal::NotWellFormed);
    }
    Report::done(state.closed())
}

// Are state and stores by the rules of docs/STATE.md? The parts of a state where they lie: it is too large to be copied for this.
fn is_lawful(
    registers: Registers,
    frames: &[u32],
    bindings: &[u32],
    inners: &[u32],
    work: &[u8],
    count: usize,
    used: usize,
    at: &[u32; IdTable::MOST],
    len: &[u32; IdTable::MOST],
    ids: &[u8],
) -> bool
    ensures { result ≡ lawful_parts registers frames.now bindings.now inners.now work.now count used at.now len.now (length ids.now) }
{
    if !state::valid(registers, frames, bindings, inners, work) {
        return false;
    }
    state_ids::valid(count, used, at, len, ids.len())
}

// 3, 11 and 7, in this order.
fn may_start(lengths: bool, base: Option<&[u8]>) -> Result<(), Refusal>
    ensures { Judges result lengths (is_some base.entry) (text_of base.entry) }
{
    if !lengths {
        return Err(Refusal::BadState);
    }
    match base {
        None => Ok(()),
        Some(base) => {
            if !iri::is_iri(base) {
                return Err(Refusal::BadIri);
            }
            if base.len() > Resolved::MOST_BYTES {
                return Err(Refusal::OverLimit);
            }
            Ok(())
        }
    }
}

// The bytes of a start base, none where there is none.
fn text_of(base: Option<&[u8]>) -> &[u8]
    ensures { result.now ≡ text_of base.entry }
{
    base.unwrap_or(b"")
}
