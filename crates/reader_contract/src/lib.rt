// What goes into a call and comes back from it: the state by value, the answer, the counts. What the three calls promise is said of these.
#![tactic(auto)]

ghost use Rattle.std.specs.Prelude.{◌≡◌};
ghost use Rattle.spec.specs.Numbers.{closes};
ghost use Rattle.reader_contract.specs.Meaning.{closed_state, marked, over_in, Fresh, Nothing};
ghost use Rattle.reader_contract.specs.Meets.{number_of, bare, refusing, doing, accepting};

pub mod fed;

use event::Advance;
use spec::{Mode, Refusal};
use state::Registers;
use state_ids::IdTable;
use state_words::{Frame, Row};

// What is kept of a document between calls, beside the work store and the ID store: docs/STATE.md.
#[derive(Clone, Copy)]
pub struct State {
    pub registers: Registers,
    pub frames: [u32; Frame::TABLE],
    pub bindings: [u32; Row::BINDINGS],
    pub inners: [u32; Row::INNERS],
    pub ids: IdTable,
}

// What a call hands back: that it is done, or why it is refused; bytes of the input consumed, bytes of the output written.
#[derive(Drop)]
pub struct Report {
    pub state: State,
    pub answer: Result<(), Refusal>,
    pub consumed: usize,
    pub written: usize,
}

impl State {
    // Before any document.
    pub fn none() -> Self
        ensures { Nothing result }
    {
        let fresh = State::fresh(Mode::base(), false, 0);
        fresh.closed()
    }

    // Of a document that begins, with a start base of `base` bytes, if there is one: they stand at the front of the work store. A flag
    // and a number, as both are stored so (docs/STATE.md).
    pub fn fresh(mode: Mode, based: bool, base: usize) -> Self
        ensures { Fresh mode based base result }
    {
        let registers = Registers::started(mode, based, base);
        let ids = IdTable::new();
        State {
            registers,
            frames: [0; Frame::TABLE],
            bindings: [0; Row::BINDINGS],
            inners: [0; Row::INNERS],
            ids,
        }
    }

    // With the closing mark.
    pub fn closed(self) -> Self
        ensures { result ≡ closed_state self }
    {
        let mut registers = self.registers;
        let frames = self.frames;
        let bindings = self.bindings;
        let inners = self.inners;
        let ids = self.ids;
        registers.flags.closed = true;
        State {
            registers,
            frames,
            bindings,
            inners,
            ids,
        }
    }

    // Behind a refusal.
    pub fn marked(self, why: Refusal) -> Self
        ensures { result ≡ marked why self }
    {
        if closes(why) { self.closed() } else { self }
    }
}

impl Report {
    // Its answer as document 01 numbers it: 0 where the call is done.
    pub fn number(&self) -> u8
        ensures { result ≡ number_of self.now.answer }
    {
        match self.answer {
            Ok(()) => 0,
            Err(why) => u8::from(why),
        }
    }

    pub fn refused(state: State, why: Refusal) -> Self
        ensures { result ≡ refusing state why }
    {
        Report::bare(state, Err(why))
    }

    pub fn done(state: State) -> Self
        ensures { result ≡ doing state }
    {
        Report::bare(state, Ok(()))
    }

    // An event of `n` bytes is done.
    pub fn accepted(
        n: usize,
        a: Advance,
        frames: [u32; Frame::TABLE],
        bindings: [u32; Row::BINDINGS],
        inners: [u32; Row::INNERS],
        at: [u32; IdTable::MOST],
        len: [u32; IdTable::MOST],
    ) -> Self
        ensures { result ≡ accepting n a frames bindings inners at len }
    {
        let registers = a.registers;
        let ids = IdTable {
            count: a.count,
            used: a.used,
            at,
            len,
        };
        let state = State {
            registers,
            frames,
            bindings,
            inners,
            ids,
        };
        let answer = Ok(());
        Report {
            state,
            answer,
            consumed: n,
            written: a.written,
        }
    }

    // Nothing was consumed or written.
    fn bare(state: State, answer: Result<(), Refusal>) -> Self
        ensures { result ≡ bare state answer }
    {
        Report {
            state,
            answer,
            consumed: 0,
            written: 0,
        }
    }
}

// Is no element open, and was there a root?
pub fn may_finish(r: Registers) -> bool
    ensures { result ≡ over_in r }
{
    (r.counts.inner == 0) & ((r.counts.depth == 0) & r.flags.rooted)
}

// Does it close the document? All do but 1 to 4.
fn closes(r: Refusal) -> bool
    ensures { result ≡ closes r }
{
    u8::from(r) > 4
}
