// A stream of PYX bytes from a reader to lines for a writer, as they come: a document, up to its end, its refusal, or the first write or
// read that fails. How it ended is handed back, and each program tells it in its own way.
#![tactic(auto)]

ghost use Rattle.std.specs.Prelude.{◌+◌, ◌≤◌, ◌<◌, ◌≡◌, Some, is_some, length};
ghost use Rattle.spec.specs.declared.Refusal.TheVariants.{Incomplete};
ghost use Rattle.event.specs.Progress.{lent, doc_in};
ghost use Rattle.reader.specs.Asked.{Roomy, Areas};
ghost use Rattle.reader_contract.specs.Meaning.{base_of, text_of};
ghost use Rattle.convert.specs.Way.{beginning};
ghost use Rattle.convert.specs.Places.{first_place, Sums, behind_of, over_at, with_more, amount, resumed_with, finishing, Moves, Readable, Reads, Paused, Follows};
ghost use Rattle.convert.specs.Places.{Counted, GoesOn, Ready, Stands, Turns, Comes, Few, Converts};

use reader::stream::Taken;
use reader_contract::fed::Fed;
use spec::{Mode, Refusal};
use state::Registers;
use state_ids::IdTable;
use state_words::{Frame, Row};
use std::io::{Read, Write};
use std::ops::ControlFlow;
use streams::{Got, Printed, Stream};

// Where the program stands: what is behind the events so far, the number of the next one, how many bytes of lines the
// writer took, which bytes of the input are at hand, and whether no more follow.
#[derive(Clone, Copy)]
struct Place {
    registers: Registers,
    count: usize,
    used: usize,
    event: usize,
    bytes: usize,
    from: usize,
    to: usize,
    last: bool,
}

// How a document ends; and the event, the next behind those that are whole, and how many bytes of lines the writer
// took.
#[derive(Clone, Copy)]
pub struct Outcome {
    pub how: How,
    pub event: usize,
    pub bytes: usize,
}

// With the document, whole or refused; at a write that failed; at a read that failed; or before any event, as its start was
// refused.
#[derive(Clone, Copy)]
pub enum How {
    Done(Result<(), Refusal>),
    Unwritten,
    Unread,
    Unstarted(Refusal),
}

impl Place {
    // The bytes of the input that are at hand at a time, and of the output until they are printed.
    const INPUT: usize = 131_072;

    const OUTPUT: usize = 131_072;

    // A proved loop has to end, and nothing says that the input does: more turns than any run takes, and so few that a word counts their events.
    const TURNS: usize = 17_592_186_044_416;

    // Before the first event.
    fn first(registers: Registers) -> Self
        ensures { result ≡ first_place registers }
    {
        Place {
            registers,
            count: 0,
            used: 0,
            event: 1,
            bytes: 0,
            from: 0,
            to: 0,
            last: false,
        }
    }

    // Behind the events that were done, with so many bytes of their lines taken.
    fn behind(self, fed: Fed, taken: usize) -> Self
        requires { Sums self fed taken }
        ensures { result ≡ behind_of self fed taken }
    {
        let registers = fed.registers;
        Place {
            registers,
            count: fed.count,
            used: fed.used,
            event: self.event + fed.events,
            bytes: self.bytes + taken,
            from: self.from + fed.consumed,
            to: self.to,
            last: self.last,
        }
    }

    // With `got` bytes more behind the rest, which is at the front now. No bytes more are to follow where there are none.
    fn with(self, rest: usize, got: usize) -> Self
        requires { rest + got < 18_446_744_073_709_551_616 }
        ensures { result ≡ with_more self rest got }
    {
        let registers = self.registers;
        Place {
            registers,
            count: self.count,
            used: self.used,
            event: self.event,
            bytes: self.bytes,
            from: 0,
            to: rest + got,
            last: got == 0,
        }
    }

    // What follows a read. One that failed is not the end of the input.
    fn resumed(self, rest: usize, got: Got) -> ControlFlow<Outcome, Place>
        requires { rest + amount got < 18_446_744_073_709_551_616 }
        ensures { result ≡ resumed_with self rest got }
    {
        match got {
            Got::Bytes(n) => ControlFlow::Continue(self.with(rest, n)),
            Got::End => ControlFlow::Continue(self.with(rest, 0)),
            Got::Failed => self.over(How::Unread),
        }
    }

    // Here the program ends.
    fn over(self, how: How) -> ControlFlow<Outcome, Place>
        ensures { result ≡ over_at self how }
    {
        ControlFlow::Break(Outcome {
            how,
            event: self.event,
            bytes: self.bytes,
        })
    }
}

// The document that a reader gives, in this mode, with a start base or without, over tables, stores and buffers of its own.
pub fn document<R: Read, W: Write>(
    source: &mut Stream<R>,
    target: &mut Stream<W>,
    mode: Mode,
    base: Option<&[u8]>,
) -> Outcome
    ensures { Converts mode (base_of (is_some base.entry) (text_of base.entry)) result × Few result }
{
    let mut frames = [0u32; Frame::TABLE];
    let mut bindings = [0u32; Row::BINDINGS];
    let mut inners = [0u32; Row::INNERS];
    let mut work = [0u8; Registers::STORE];
    let mut places = [0u32; IdTable::MOST];
    let mut sizes = [0u32; IdTable::MOST];
    let mut ids = [0u8; IdTable::BYTES];
    let mut input = [0u8; Place::INPUT];
    let mut output = [0u8; Place::OUTPUT];
    let mut scratch = [0u8; Taken::SCRATCH];
    let mut spans = [0u32; Taken::SPANS];
    let mut area = [0u8; Taken::AREA];
    let begun = reader::begin(mode, base, &mut work, &ids);
    match begun {
        Err(why) => Outcome {
            how: How::Unstarted(why),
            event: 0,
            bytes: 0,
        },
        Ok(registers) => run(
            source,
            target,
            registers,
            &mut frames,
            &mut bindings,
            &mut inners,
            &mut work,
            &mut places,
            &mut sizes,
            &mut ids,
            &mut input,
            &mut output,
            &mut scratch,
            &mut spans,
            &mut area,
        ),
    }
}

// Turn after turn, over the tables and stores of a document, the two buffers, and scratch.
fn run<R: Read, W: Write>(
    source: &mut Stream<R>,
    target: &mut Stream<W>,
    registers: Registers,
    frames: &mut [u32],
    bindings: &mut [u32],
    inners: &mut [u32],
    work: &mut [u8],
    places: &mut [u32; IdTable::MOST],
    sizes: &mut [u32; IdTable::MOST],
    ids: &mut [u8],
    input: &mut [u8],
    output: &mut [u8],
    scratch: &mut [u8],
    spans: &mut [u32],
    area: &mut [u8],
) -> Outcome
    requires { Ready registers (lent frames.old bindings.old inners.old work.old places.old sizes.old ids.old output.old) input.old × Roomy scratch.old spans.old area.old }
    ensures { Comes
        (beginning (doc_in registers 0
        (lent frames.old bindings.old inners.old work.old places.old sizes.old ids.old output.old)))
        result
        × Few result }
{
    let mut place = Place::first(registers);
    for turns in 0..Place::TURNS {
        let next = turn(
            source, target, place, frames, bindings, inners, work, places, sizes, ids, input,
            output, scratch, spans, area,
        );
        match next {
            ControlFlow::Continue(p) => place = p,
            ControlFlow::Break(outcome) => return outcome,
        }
    }
    // No run takes so many turns; here it would be as if no more could be read.
    Outcome {
        how: How::Unread,
        event: place.event,
        bytes: place.bytes,
    }
}

// The events at hand, as many as the output has room for; their lines, printed; and what follows.
fn turn<R: Read, W: Write>(
    source: &mut Stream<R>,
    target: &mut Stream<W>,
    place: Place,
    frames: &mut [u32],
    bindings: &mut [u32],
    inners: &mut [u32],
    work: &mut [u8],
    places: &mut [u32; IdTable::MOST],
    sizes: &mut [u32; IdTable::MOST],
    ids: &mut [u8],
    input: &mut [u8],
    output: &mut [u8],
    scratch: &mut [u8],
    spans: &mut [u32],
    area: &mut [u8],
) -> ControlFlow<Outcome, Place>
    requires { Stands place (lent frames.old bindings.old inners.old work.old places.old sizes.old ids.old output.old) input.old × Roomy scratch.old spans.old area.old }
    ensures { Turns place
        (lent frames.old bindings.old inners.old work.old places.old sizes.old ids.old output.old)
        input.old result
        (lent frames.new bindings.new inners.new work.new places.new sizes.new ids.new output.new)
        input.new
        × Areas scratch.old spans.old area.old scratch.new spans.new area.new }
{
    let registers = place.registers;
    let from = place.from;
    let to = place.to;
    let fed = reader::feeding::feed(
        registers,
        place.count,
        place.used,
        frames,
        bindings,
        inners,
        work,
        places,
        sizes,
        ids,
        &input[from..to],
        place.last,
        output,
        scratch,
        spans,
        area,
    );
    let written = fed.written;
    let printed = streams::print(target, &output[..written]);
    go_on(source, place, fed, printed, input)
}

// What follows the lines of a turn. Behind a write that failed nothing does.
fn go_on<R: Read>(
    source: &mut Stream<R>,
    place: Place,
    fed: Fed,
    printed: Printed,
    input: &mut [u8],
) -> ControlFlow<Outcome, Place>
    requires { Counted place fed printed input.old }
    ensures { GoesOn place input.old fed printed result input.new }
{
    let whole = printed.is_whole();
    let taken = printed.taken();
    if !whole {
        return ControlFlow::Break(Outcome {
            how: How::Unwritten,
            event: place.event,
            bytes: place.bytes + taken,
        });
    }
    follow(source, place.behind(fed, taken), fed.refusal, input)
}

// By why no further event was done: the next ones, more input, or the end.
fn follow<R: Read>(
    source: &mut Stream<R>,
    place: Place,
    refusal: Option<Refusal>,
    input: &mut [u8],
) -> ControlFlow<Outcome, Place>
    requires { Paused place refusal input.old }
    ensures { Follows place input.old refusal result input.new }
{
    match refusal {
        None => ControlFlow::Continue(place),
        Some(why) => match why {
            Refusal::Incomplete => end_or_read(source, place, input),
            _ => place.over(How::Done(Err(why))),
        },
    }
}

// No complete event is left: where no more input follows the document is over, else more of it is read.
fn end_or_read<R: Read>(
    source: &mut Stream<R>,
    place: Place,
    input: &mut [u8],
) -> ControlFlow<Outcome, Place>
    requires { Readable place input.old }
    ensures { Follows place input.old (Some Incomplete) result input.new }
{
    if place.last {
        return place.over(How::Done(finish(place.registers)));
    }
    read(source, place, input)
}

// What a document that is over gets: 6 where an element is open or there was no root.
fn finish(registers: Registers) -> Result<(), Refusal>
    ensures { result ≡ finishing registers }
{
    if reader_contract::may_finish(registers) {
        return Ok(());
    }
    Err(Refusal::NotWellFormed)
}

// A block behind the rest.
fn read<R: Read>(
    source: &mut Stream<R>,
    place: Place,
    input: &mut [u8],
) -> ControlFlow<Outcome, Place>
    requires { Readable place input.old }
    ensures { Reads place input.old result input.new }
{
    let rest = to_front(input, place.from, place.to);
    let got = streams::read(source, &mut input[rest..]);
    place.resumed(rest, got)
}

// The bytes from `from` to `to` at the front: how many they are.
fn to_front(buffer: &mut [u8], from: usize, to: usize) -> usize
    requires { (from ≤ to) × (to ≤ length buffer.old) }
    ensures { Moves buffer.old from to buffer.new result }
{
    buffer.copy_within(from..to, 0);
    to - from
}
