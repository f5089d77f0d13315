// A node that closes is the object, or the next child, of the property around it: its bytes move down in the work store.
ghost use Rattle.std.specs.Prelude.{◌≡◌, ◌+◌, ◌-◌, ◌*◌, ◌≤◌, ◌<◌, length};
ghost use Rattle.spec.specs.Limits.{work_store_bytes};
ghost use Rattle.state_stack.specs.Take.{may_take, object_word, blank_byte, TakesObject, TakesChild, TakesNode, ClosesNode, child_in};

use copy::words::{byte, wide};
use state::Registers;
use state_words::{Frame, Kind};

// Each child of a Collection takes bytes of the store.
const MOST_CHILDREN: u32 = Registers::STORE as u32;

// A child of a Collection in the work store.
#[derive(Clone, Copy)]
pub struct Child {
    pub at: usize,
    pub len: usize,
    pub blank: bool,
}

// The node on top closes: the default property around it has it as its object, the Collection as its next child.
pub fn close_node(r: Registers, frames: &mut [u32], work: &mut [u8]) -> Option<Registers>
    ensures { ClosesNode r frames.old work.old result frames.new work.new }
{
    if work.len() != Registers::STORE {
        return None;
    }
    let n = crate::top(r, frames);
    if n.kind != Kind::NodeElt {
        return None;
    }
    let q = crate::pop(r, frames)?;
    take_node(q, frames, work, n)
}

// The child that ends at `e`; the one before it ends where it starts. No Option where none does: `child_in` says so.
pub fn child_at(work: &[u8], e: usize) -> Child
    ensures { result ≡ child_in work.now e }
{
    if e < 4 {
        return Child {
            at: 0,
            len: 0,
            blank: false,
        };
    }
    if work.len() < e {
        return Child {
            at: 0,
            len: 0,
            blank: false,
        };
    }
    let len = byte(work[e - 4]) + 256 * byte(work[e - 3]);
    Child {
        at: (e - 4).saturating_sub(len),
        len,
        blank: work[e - 2] != 0,
    }
}

// By the element around it, which is now on top.
fn take_node(r: Registers, frames: &mut [u32], work: &mut [u8], n: Frame) -> Option<Registers>
    requires { length work.old ≡ work_store_bytes }
    ensures { TakesNode r frames.old work.old n result frames.new work.new }
{
    let f = crate::top(r, frames);
    if f.kind == Kind::PropertyElt {
        return take_object(r, frames, work, f, n);
    }
    if f.kind == Kind::ParseTypeCollectionPropertyElt {
        return take_child(r, frames, work, f, n);
    }
    Some(r)
}

// The main part of `n` as the object of `f`.
fn take_object(
    r: Registers,
    frames: &mut [u32],
    work: &mut [u8],
    f: Frame,
    n: Frame,
) -> Option<Registers>
    requires { length work.old ≡ work_store_bytes }
    ensures { TakesObject r frames.old work.old f n result frames.new work.new }
{
    let mut at = f.at;
    let mut has = f.has;
    let kind = f.kind;
    let main = n.at;
    let marks = n.has;
    let from = wide(main[Frame::MAIN]);
    let len = wide(main[Frame::ID]).saturating_sub(from);
    let to = wide(at[Frame::TAIL]);
    if !may_take(r, frames.len(), from, to, len, to + len) {
        return None;
    }
    at[Frame::END] = (to + len) as u32;
    has[Frame::PENDING] = object_word(marks[Frame::BLANK]);
    Frame::store(frames, r.counts.depth - 1, Frame { kind, at, has });
    work.copy_within(from..from + len, to);
    Some(crate::with_top(r, to + len))
}

// The main part of `n` as the next child of `f`, and behind it its length and whether it is a blank node.
fn take_child(
    r: Registers,
    frames: &mut [u32],
    work: &mut [u8],
    f: Frame,
    n: Frame,
) -> Option<Registers>
    requires { length work.old ≡ work_store_bytes }
    ensures { TakesChild r frames.old work.old f n result frames.new work.new }
{
    let mut at = f.at;
    let mut has = f.has;
    let kind = f.kind;
    let main = n.at;
    let marks = n.has;
    let from = wide(main[Frame::MAIN]);
    let len = wide(main[Frame::ID]).saturating_sub(from);
    let to = wide(at[Frame::END]);
    let count = has[Frame::COUNT];
    if !may_take(r, frames.len(), from, to, len, to + len + 4) {
        return None;
    }
    if count >= MOST_CHILDREN {
        return None;
    }
    at[Frame::END] = (to + len + 4) as u32;
    has[Frame::COUNT] = count + 1;
    Frame::store(frames, r.counts.depth - 1, Frame { kind, at, has });
    work.copy_within(from..from + len, to);
    let mark = [
        (len % 256) as u8,
        (len / 256) as u8,
        blank_byte(marks[Frame::BLANK]),
        0,
    ];
    copy::put(work, to + len, &mark);
    Some(crate::with_top(r, to + len + 4))
}

// Is there room to move `len` bytes from `from` down to `to`, so that what is held ends at `end`?
#[tactic(auto, unfolding(crate::specs::Take::may_take, spec::specs::Limits::work_store_bytes))]
fn may_take(r: Registers, words: usize, from: usize, to: usize, len: usize, end: usize) -> bool
    requires { (from < 4294967296) × (len < 4294967296) }
    ensures { result ≡ may_take r words from to len end }
{
    let a = to <= from;
    let b = from + len <= Registers::STORE;
    let c = end <= r.store.low;
    let d = r.store.low <= Registers::STORE;
    let e = 0 < r.counts.depth;
    let f = r.counts.depth <= words / Frame::WORDS;
    a & (b & (c & (d & (e & f))))
}

// A named node, or a blank one, as an object and as the mark of a child.
#[tactic(auto, unfolding(crate::specs::Take::object_word))]
fn object_word(blank: u32) -> u32
    ensures { result ≡ object_word blank }
{
    if blank == 0 {
        Frame::NAMED_NODE
    } else {
        Frame::BLANK_NODE
    }
}

#[tactic(auto, unfolding(crate::specs::Take::blank_byte))]
fn blank_byte(blank: u32) -> u8
    ensures { result ≡ blank_byte blank }
{
    if blank == 0 { 0 } else { 1 }
}
