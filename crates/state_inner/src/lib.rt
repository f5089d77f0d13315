// Elements inside Literal content, which stand at the far end of the work store; and what is read of all open elements.
#![tactic(auto)]

ghost use Rattle.std.specs.Prelude.{◌≡◌, ◌+◌, ◌-◌, ◌*◌, ◌≤◌, ◌<◌, leb};
ghost use Rattle.spec.specs.Limits.{most_held_bytes};
ghost use Rattle.state_stack.specs.Change.{inside_to};
ghost use Rattle.state_inner.specs.Calls.{Opens, Closes, ceiling_in, name_in, innermost_in, stretch, base_in, language_in, held_in};

use copy::words::wide;
use state::{Counts, Registers, Span, Store};
use state_words::{Frame, Row};

// One more element inside, whose name and bindings stand in the work store from `at` up to `low`, with bindings up to `bound`.
pub fn open_inside(
    r: Registers,
    inners: &mut [u32],
    at: usize,
    name: usize,
    bound: usize,
) -> Option<Registers>
    ensures { Opens r inners.old at name bound result inners.new }
{
    if r.counts.depth > Frame::MOST {
        return None;
    }
    if r.counts.inner >= Frame::MOST - r.counts.depth {
        return None;
    }
    if at > Registers::STORE {
        return None;
    }
    if name > Registers::STORE {
        return None;
    }
    if r.counts.bindings > Row::MOST_BINDINGS {
        return None;
    }
    let row = Row {
        at: at as u32,
        name: name as u32,
        more: r.counts.bindings as u32,
    };
    if !Row::store(inners, r.counts.inner, row) {
        return None;
    }
    Some(inside(r, r.counts.inner + 1, at, bound))
}

// One less.
pub fn close_inside(r: Registers, inners: &[u32]) -> Option<Registers>
    ensures { Closes r inners.now result }
{
    let n = r.counts.inner.checked_sub(1)?;
    let row = Row::load(inners, n);
    Some(inside(r, n, ceiling(inners, n), wide(row.more)))
}

// The name of the innermost open element.
pub fn name(r: Registers, frames: &[u32], inners: &[u32]) -> Option<Span>
    ensures { result ≡ name_in r frames.now inners.now }
{
    if r.counts.inner != 0 {
        let row = Row::load(inners, r.counts.inner - 1);
        return Some(Span {
            at: wide(row.at),
            len: wide(row.name),
        });
    }
    if r.counts.depth == 0 {
        return None;
    }
    let f = Frame::load(frames, r.counts.depth - 1);
    let at = f.at;
    Some(between(wide(at[Frame::NAME]), wide(at[Frame::BINDINGS])))
}

// xml:base in force, from the start base at last.
pub fn base_in_force(r: Registers, frames: &[u32]) -> Option<Span>
    ensures { result ≡ base_in r frames.now }
{
    let own = innermost(frames, r.counts.depth, Frame::BASED, Frame::BASE);
    let start = Span {
        at: 0,
        len: r.store.base,
    };
    own.or(r.flags.based.then_some(start))
}

// xml:lang in force: none where no element says one, or the innermost that does clears it.
pub fn language_in_force(r: Registers, frames: &[u32]) -> Option<Span>
    ensures { result ≡ language_in r frames.now }
{
    let said = innermost(frames, r.counts.depth, Frame::TAGGED, Frame::TAG)?;
    if said.len == 0 {
        return None;
    }
    Some(said)
}

// Held bytes: what is noted is stored, and not held.
pub fn held(r: Registers) -> usize
    ensures { result ≡ held_in r }
{
    if r.store.low > Registers::STORE {
        return Registers::STORE;
    }
    if r.store.top > r.store.low {
        return Registers::STORE;
    }
    r.store.top.saturating_sub(r.store.noted) + (Registers::STORE - r.store.low)
}

// May an event leave this much held?
pub fn holds_no_more(r: Registers) -> bool
    ensures { result ≡ leb (held_in r) most_held_bytes }
{
    held(r) <= Registers::MOST_HELD
}

// The part that starts at `place` of the innermost frame that has it.
fn innermost(frames: &[u32], depth: usize, mark: usize, place: usize) -> Option<Span>
    requires { (mark < 8) × (place < 8) }
    ensures { result ≡ innermost_in frames.now mark place depth }
{
    for i in (0..depth).rev() {
        let f = Frame::load(frames, i);
        let at = f.at;
        let has = f.has;
        if has[mark] != 0 {
            return Some(between(wide(at[place]), wide(at[place + 1])));
        }
    }
    None
}

fn between(a: usize, b: usize) -> Span
    ensures { result ≡ stretch a b }
{
    Span {
        at: a,
        len: b.saturating_sub(a),
    }
}

// Where inner element `i` ends.
fn ceiling(inners: &[u32], i: usize) -> usize
    ensures { result ≡ ceiling_in inners.now i }
{
    if i == 0 {
        return Registers::STORE;
    }
    let row = Row::load(inners, i - 1);
    wide(row.at)
}

fn inside(r: Registers, inner: usize, low: usize, bound: usize) -> Registers
    ensures { result ≡ inside_to r inner low bound }
{
    let store = Store {
        base: r.store.base,
        top: r.store.top,
        low,
        noted: r.store.noted,
    };
    let counts = Counts {
        depth: r.counts.depth,
        inner,
        outer: r.counts.outer,
        bindings: bound,
        labels: r.counts.labels,
    };
    Registers::of(r.mode, r.flags, store, counts)
}
