// A state as bytes, at fixed places: its numbers, eight bytes each, then its tables, four bytes a word, the low byte first.
// The places are part of the C interface: a host may keep the bytes (docs/STATE.md).
ghost use Rattle.std.specs.Prelude.{◌≡◌, leb, eqb, length};
ghost use Rattle.std.specs.Bool.{then_some};
ghost use Rattle.reader_host.specs.Image.{mode_of, state_bytes, numbers_of, flags_ok, registers_of};
ghost use Rattle.reader_host.specs.Meets.{Stands, Loads};
ghost use Rattle.reader_host.specs.Saving.{WroteIds};

use crate::little::{read_row, write_row};
use reader_contract::State;
use spec::Mode;
use state::{Counts, Flags, Registers, Store};
use state_ids::IdTable;
use state_words::{Frame, Row};

// Its numbers; the flags are the first three, then comes the mode.
pub const NUMBERS: usize = 15;

// Where its tables begin.
pub const FRAMES: usize = NUMBERS * 8;

pub const BINDINGS: usize = FRAMES + Frame::TABLE * 4;

pub const INNERS: usize = BINDINGS + Row::BINDINGS * 4;

pub const IDS_AT: usize = INNERS + Row::INNERS * 4;

pub const IDS_LEN: usize = IDS_AT + IdTable::MOST * 4;

// The whole, in bytes.
pub const BYTES: usize = IDS_LEN + IdTable::MOST * 4;

// The state that the bytes stand for, if there is one.
pub(crate) fn load(b: &[u8]) -> Option<State>
    ensures { Loads b.now result }
{
    if b.len() != BYTES {
        return None;
    }
    let mut numbers = [0; NUMBERS];
    read_row(b, 0, &mut numbers);
    let registers = registers_of(numbers)?;
    let mut frames = [0; Frame::TABLE];
    let mut bindings = [0; Row::BINDINGS];
    let mut inners = [0; Row::INNERS];
    let mut at = [0; IdTable::MOST];
    let mut len = [0; IdTable::MOST];
    read_row(b, FRAMES, &mut frames);
    read_row(b, BINDINGS, &mut bindings);
    read_row(b, INNERS, &mut inners);
    read_row(b, IDS_AT, &mut at);
    read_row(b, IDS_LEN, &mut len);
    let ids = IdTable {
        count: numbers[13],
        used: numbers[14],
        at,
        len,
    };
    Some(State {
        registers,
        frames,
        bindings,
        inners,
        ids,
    })
}

// The bytes of a state.
pub(crate) fn save(b: &mut [u8], s: State)
    requires { length b.old ≡ state_bytes }
    ensures { Stands b.new s }
{
    write_row(b, 0, &numbers_of(s));
    write_row(b, FRAMES, &s.frames);
    write_row(b, BINDINGS, &s.bindings);
    write_row(b, INNERS, &s.inners);
    write_ids(b, s.ids);
}

// The table of rdf:IDs, at the end.
fn write_ids(b: &mut [u8], ids: IdTable)
    requires { length b.old ≡ state_bytes }
    ensures { WroteIds b.old ids b.new }
{
    write_row(b, IDS_AT, &ids.at);
    write_row(b, IDS_LEN, &ids.len);
}

// The numbers of a state, in the order of their places. A flag is 0 or 1; so is a mode: 0 the base, 1 XMP packets.
fn numbers_of(s: State) -> [usize; NUMBERS]
    ensures { result ≡ numbers_of s }
{
    let r = s.registers;
    let ids = s.ids;
    [
        usize::from(r.flags.closed),
        usize::from(r.flags.rooted),
        usize::from(r.flags.based),
        usize::from(r.mode.xmp),
        r.store.base,
        r.counts.depth,
        r.counts.inner,
        r.counts.outer,
        r.counts.bindings,
        r.store.top,
        r.store.low,
        r.store.noted,
        r.counts.labels as usize,
        ids.count,
        ids.used,
    ]
}

// And back, where each flag and the mode are of such a number.
fn registers_of(ns: [usize; NUMBERS]) -> Option<Registers>
    ensures { result ≡ then_some (flags_ok ns) (registers_of ns) }
{
    let mode = mode_of(ns[3])?;
    let closed = flag_of(ns[0])?;
    let rooted = flag_of(ns[1])?;
    let based = flag_of(ns[2])?;
    Some(Registers {
        mode,
        flags: Flags {
            closed,
            rooted,
            based,
        },
        store: Store {
            base: ns[4],
            top: ns[9],
            low: ns[10],
            noted: ns[11],
        },
        counts: Counts {
            depth: ns[5],
            inner: ns[6],
            outer: ns[7],
            bindings: ns[8],
            labels: ns[12] as u64,
        },
    })
}

// The mode of a number. A host in C gives it as one; `Mode` is of another crate, so that no impl of TryFrom can stand here.
pub(crate) fn mode_of(number: usize) -> Option<Mode>
    ensures { result ≡ then_some (leb number 1) (mode_of number) }
{
    let known = number <= 1;
    known.then_some(Mode { xmp: number == 1 })
}

fn flag_of(number: usize) -> Option<bool>
    ensures { result ≡ then_some (leb number 1) (eqb number 1) }
{
    (number <= 1).then_some(number == 1)
}
