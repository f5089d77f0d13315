// The open elements of a document as a stack: what an event may do at its top. Every call answers on every input. A change answers the
// registers behind it, or none where it cannot be made: then nothing changed. What it did to a valid state is said by the laws of specs/.
#![tactic(auto)]

ghost use Rattle.std.specs.Prelude.{◌≡◌, ◌+◌, ◌-◌, ◌*◌, ◌≤◌, ◌<◌, length};
ghost use Rattle.state_stack.specs.Change.{topped_to, labelled_to};
ghost use Rattle.state_stack.specs.Calls.{frame_of, Pushes, Pops, Binds, top_frame, Texts, Xmls, CountsLi, Tails};

pub mod nodes;
pub mod packets;

use copy::words::wide;
use label::BlankNodeIdGenerator;
use state::{Counts, Flags, Registers, Store};
use state_words::{Frame, Kind, Row};

// ---- elements outside Literal content

// One more element, whose bytes stand in the work store from `top` on, with bindings up to `bound`.
pub fn push(
    r: Registers,
    frames: &mut [u32],
    kind: Kind,
    at: [u32; Frame::PLACES],
    has: [u32; Frame::MARKS],
    bound: usize,
) -> Option<Registers>
    ensures { Pushes r frames.old (frame_of kind at has) bound result frames.new }
{
    push_frame(r, frames, Frame { kind, at, has }, bound)
}

// One less; its bytes and bindings may be used again.
pub fn pop(r: Registers, frames: &[u32]) -> Option<Registers>
    ensures { Pops r frames.now result }
{
    if r.counts.inner != 0 {
        return None;
    }
    let depth = r.counts.depth.checked_sub(1)?;
    let f = Frame::load(frames, depth);
    let at = f.at;
    let has = f.has;
    let first = wide(has[Frame::FIRST]);
    let top = wide(at[Frame::NAME]);
    let store = Store {
        base: r.store.base,
        top,
        low: r.store.low,
        noted: r.store.noted.saturating_sub(state::noted_of(f)),
    };
    let counts = Counts {
        depth,
        inner: r.counts.inner,
        outer: first,
        bindings: first,
        labels: r.counts.labels,
    };
    Some(Registers::of(r.mode, r.flags, store, counts))
}

// A binding as row `n`, its prefix and namespace from `at` on.
pub fn bind(
    work: &mut [u8],
    bindings: &mut [u32],
    at: usize,
    n: usize,
    prefix: &[u8],
    namespace: &[u8],
) -> bool
    ensures { Binds work.old bindings.old at n prefix.now namespace.now work.new bindings.new result }
{
    if work.len() > Registers::STORE {
        return false;
    }
    if work.len() < at {
        return false;
    }
    if work.len() - at < prefix.len() {
        return false;
    }
    let middle = at + prefix.len();
    if work.len() - middle < namespace.len() {
        return false;
    }
    let row = Row {
        at: at as u32,
        name: prefix.len() as u32,
        more: namespace.len() as u32,
    };
    if !Row::store(bindings, n, row) {
        return false;
    }
    copy::put(work, at, prefix);
    copy::put(work, middle, namespace);
    true
}

// The frame on top; where there is none, no frame.
pub fn top(r: Registers, frames: &[u32]) -> Frame
    ensures { result ≡ top_frame r frames.now }
{
    if r.counts.depth == 0 {
        return Frame::none();
    }
    Frame::load(frames, r.counts.depth - 1)
}

// The text of the default property on top, in place of the object so far.
pub fn set_text(r: Registers, frames: &mut [u32], work: &mut [u8], text: &[u8]) -> Option<Registers>
    ensures { Texts r frames.old work.old text.now result frames.new work.new }
{
    let f = top(r, frames);
    let at = f.at;
    if f.kind != Kind::PropertyElt {
        return None;
    }
    write_tail(r, frames, work, f, wide(at[Frame::TAIL]), Frame::TEXT, text)
}

// More XML text of the Literal property on top; any other parseType keeps none.
pub fn add_xml(r: Registers, frames: &mut [u32], work: &mut [u8], text: &[u8]) -> Option<Registers>
    ensures { Xmls r frames.old work.old text.now result frames.new work.new }
{
    let f = top(r, frames);
    let at = f.at;
    let has = f.has;
    if f.kind == Kind::ParseTypeOtherPropertyElt {
        return Some(r);
    }
    if f.kind != Kind::ParseTypeLiteralPropertyElt {
        return None;
    }
    write_tail(
        r,
        frames,
        work,
        f,
        wide(at[Frame::END]),
        has[Frame::PENDING],
        text,
    )
}

// One more rdf:li of the node on top.
pub fn count_li(r: Registers, frames: &mut [u32]) -> bool
    ensures { CountsLi r frames.old result frames.new }
{
    let f = top(r, frames);
    let at = f.at;
    let mut has = f.has;
    let kind = f.kind;
    if kind != Kind::NodeElt {
        return false;
    }
    if r.counts.depth == 0 {
        return false;
    }
    let count = wide(has[Frame::COUNT]);
    if count as u64 >= BlankNodeIdGenerator::MOST_LABELS {
        return false;
    }
    has[Frame::COUNT] = (count + 1) as u32;
    Frame::store(frames, r.counts.depth - 1, Frame { kind, at, has })
}

// The frame of a new element, on top of the others.
fn push_frame(r: Registers, frames: &mut [u32], f: Frame, bound: usize) -> Option<Registers>
    ensures { Pushes r frames.old f bound result frames.new }
{
    let at = f.at;
    if r.counts.inner != 0 {
        return None;
    }
    if r.counts.depth >= Frame::MOST {
        return None;
    }
    if !Frame::store(frames, r.counts.depth, f) {
        return None;
    }
    let top = wide(at[Frame::END]);
    let depth = r.counts.depth + 1;
    let flags = Flags {
        closed: r.flags.closed,
        rooted: true,
        based: r.flags.based,
    };
    let store = Store {
        base: r.store.base,
        top,
        low: r.store.low,
        noted: r.store.noted,
    };
    let counts = Counts {
        depth,
        inner: r.counts.inner,
        outer: bound,
        bindings: bound,
        labels: r.counts.labels,
    };
    Some(Registers::of(r.mode, flags, store, counts))
}

// `s` into the work store from `from` on, as the tail of frame `f`, which is the one on top. `what` is its mark as a word, no enum: that
// of a Literal stays as it was, and that of an rdf:RDF says that it is noted.
fn write_tail(
    r: Registers,
    frames: &mut [u32],
    work: &mut [u8],
    f: Frame,
    from: usize,
    what: u32,
    s: &[u8],
) -> Option<Registers>
    ensures { Tails r frames.old work.old f from what s.now result frames.new work.new }
{
    let low = r.store.low;
    if r.counts.depth == 0 {
        return None;
    }
    if low > Registers::STORE {
        return None;
    }
    if work.len() < low {
        return None;
    }
    if low < from {
        return None;
    }
    if low - from < s.len() {
        return None;
    }
    let to = from + s.len();
    let mut at = f.at;
    let mut has = f.has;
    let kind = f.kind;
    at[Frame::END] = to as u32;
    has[Frame::PENDING] = what;
    if !Frame::store(frames, r.counts.depth - 1, Frame { kind, at, has }) {
        return None;
    }
    copy::put(work, from, s);
    Some(with_top(r, to))
}

pub fn with_top(r: Registers, top: usize) -> Registers
    ensures { result ≡ topped_to r top }
{
    let store = Store {
        base: r.store.base,
        top,
        low: r.store.low,
        noted: r.store.noted,
    };
    Registers::of(r.mode, r.flags, store, r.counts)
}

pub fn with_labels(r: Registers, labels: u64) -> Registers
    ensures { result ≡ labelled_to r labels }
{
    let counts = Counts {
        depth: r.counts.depth,
        inner: r.counts.inner,
        outer: r.counts.outer,
        bindings: r.counts.bindings,
        labels,
    };
    Registers::of(r.mode, r.flags, r.store, counts)
}
