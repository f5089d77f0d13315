// What the elements of an XMP packet remember of their children, noted in the frame on top: document 02, request 1.
ghost use Rattle.std.specs.Prelude.{◌≡◌, ◌<◌};
ghost use Rattle.state_stack.specs.Change.{noting_to};
ghost use Rattle.state_stack.specs.Packets.{Marks, HasRdf, NotesLi, NotesAbout, carried_word};

use copy::words::wide;
use state::{Registers, Store};
use state_words::{Frame, Kind};

// The wrapper on top has had its rdf:RDF.
pub fn count_rdf(r: Registers, frames: &mut [u32])
    ensures { HasRdf r frames.old frames.new }
{
    let f = crate::top(r, frames);
    if f.kind != Kind::Wrapper {
        return;
    }
    mark(r, frames, f, Frame::COUNT, 1);
}

// The rdf:Alt on top has its first rdf:li, which carries xml:lang or not.
pub fn note_li(r: Registers, frames: &mut [u32], carries: bool)
    ensures { NotesLi r frames.old carries frames.new }
{
    let f = crate::top(r, frames);
    let has = f.has;
    if f.kind != Kind::NodeElt {
        return;
    }
    if has[Frame::PART] != Frame::AWAITED {
        return;
    }
    mark(r, frames, f, Frame::PART, carried_word(carries));
}

// The rdf:RDF on top has its first element, which is about this.
pub fn note_about(r: Registers, frames: &mut [u32], work: &mut [u8], about: &[u8]) -> Registers
    ensures { NotesAbout r frames.old work.old about.now result frames.new work.new }
{
    let f = crate::top(r, frames);
    let at = f.at;
    let has = f.has;
    if f.kind != Kind::Rdf {
        return r;
    }
    if has[Frame::PART] != Frame::AWAITED {
        return r;
    }
    let from = wide(at[Frame::TAIL]);
    let q = crate::write_tail(r, frames, work, f, from, Frame::NOTED, about).unwrap_or(r);
    noting(q, about.len())
}

// With so many bytes noted.
fn noting(r: Registers, noted: usize) -> Registers
    ensures { result ≡ noting_to r r.store.top noted }
{
    let store = Store {
        base: r.store.base,
        top: r.store.top,
        low: r.store.low,
        noted,
    };
    Registers::of(r.mode, r.flags, store, r.counts)
}

// Frame `f`, which is the one on top, with another mark.
fn mark(r: Registers, frames: &mut [u32], f: Frame, which: usize, value: u32) -> bool
    requires { which < 8 }
    ensures { Marks r frames.old f which value result frames.new }
{
    let at = f.at;
    let mut has = f.has;
    let kind = f.kind;
    if r.counts.depth == 0 {
        return false;
    }
    has[which] = value;
    Frame::store(frames, r.counts.depth - 1, Frame { kind, at, has })
}

fn carried_word(carries: bool) -> u32
    ensures { result ≡ carried_word carries }
{
    if carries {
        Frame::CARRIED
    } else {
        Frame::NOTED
    }
}
