// Open elements, bindings, held bytes and the work store filled to the last and one past, a Collection read back; the answers printed.
use crate::printing::{answer, number};
use spec::Mode;
use state::{Registers, Span};
use state_words::{Frame, Kind, Row};
use std::io::Stdout;

pub fn try_all(out: Stdout) {
    deepest(out);
    most_bindings(out);
    most_inside(out);
    held_texts(out);
    stored_texts(out);
    children(out);
    room_again(out);
    starts(out);
    bases(out);
}

// The registers of a fresh document in the base mode.
fn started(based: bool, base: usize) -> Registers {
    Registers::started(Mode::base(), based, base)
}

// ---- the limits

// How many nodes can be open: 64.
fn deepest(out: Stdout) {
    let mut frames = [0u32; Frame::TABLE];
    let mut r = started(false, 0);
    let mut at: u32 = 0;
    for n in 0..70 {
        let pushed = state_stack::push(r, &mut frames, Kind::NodeElt, places(at), [0u32; 8], 0);
        let Some(behind) = pushed else {
            number(out, b"open elements", n);
            answer(out, b"valid", is_valid(r, &frames));
            return;
        };
        r = behind;
        at = std::num::wrapping_add_u32(at, 2);
    }
}

// How many bindings there is room for: 128.
fn most_bindings(out: Stdout) {
    let mut bindings = [0u32; Row::BINDINGS];
    let mut work = [0u8; Registers::STORE];
    // `n` is told behind the loop: how many went.
    let mut n: usize = 0;
    while n < 200 {
        if !state_stack::bind(&mut work, &mut bindings, n, n, b"", b"x") {
            break;
        }
        n += 1;
    }
    number(out, b"bindings", n);
}

// How many elements can be open inside a Literal property that is the only other one: 63.
fn most_inside(out: Stdout) {
    let mut inners = [0u32; Row::INNERS];
    let mut frames = [0u32; Frame::TABLE];
    let mut r = pushed(
        started(false, 0),
        &mut frames,
        Kind::ParseTypeLiteralPropertyElt,
        0,
    );
    // `n` is told behind the loop: how many went.
    let mut n: usize = 0;
    while n < 70 {
        let Some(behind) = state_inner::open_inside(r, &mut inners, 65535 - n, 1, 0) else {
            break;
        };
        r = behind;
        n += 1;
    }
    number(out, b"inside", n);
    number(out, b"held", state_inner::held(r));
}

// The text of a default property in a node, up to the limit on held bytes.
fn held_texts(out: Stdout) {
    let mut work = [97u8; Registers::STORE];
    let mut frames = [0u32; Frame::TABLE];
    let r = in_node(&mut frames, Kind::PropertyElt);
    let most = state_stack::set_text(r, &mut frames, &mut work, &[97u8; 49_148]).unwrap_or(r);
    answer(
        out,
        b"text of 49,148 may be held",
        state_inner::holds_no_more(most),
    );
    let over = state_stack::set_text(most, &mut frames, &mut work, &[97u8; 49_149]).unwrap_or(most);
    answer(
        out,
        b"text of 49,149 may be held",
        state_inner::holds_no_more(over),
    );
}

// And up to the end of the store.
fn stored_texts(out: Stdout) {
    let mut work = [97u8; Registers::STORE];
    let mut frames = [0u32; Frame::TABLE];
    let r = in_node(&mut frames, Kind::PropertyElt);
    let last = state_stack::set_text(r, &mut frames, &mut work, &[97u8; 65_532]);
    answer(out, b"text of 65,532 has room", last.is_some());
    let full = last.unwrap_or(r);
    answer(out, b"valid", is_valid(full, &frames));
    let more = state_stack::set_text(full, &mut frames, &mut work, &[97u8; 65_533]);
    answer(out, b"text of 65,533 has room", more.is_some());
    number(out, b"held", state_inner::held(more.unwrap_or(full)));
}

// ---- operations

// Two nodes close in a Collection: its children, last to first.
fn children(out: Stdout) {
    let mut work = [97u8; Registers::STORE];
    let mut frames = [0u32; Frame::TABLE];
    let r = in_node(&mut frames, Kind::ParseTypeCollectionPropertyElt);
    let r = child(out, r, &mut frames, &mut work, 4);
    let r = child(out, r, &mut frames, &mut work, 9);
    number(out, b"held", state_inner::held(r));
    let last = state_stack::nodes::child_at(&work, r.store.top);
    number(out, b"last child at", last.at);
    let first = state_stack::nodes::child_at(&work, last.at);
    number(out, b"first child at", first.at);
}

// A node that closes as a child: is the state behind it valid?
fn child(out: Stdout, r: Registers, frames: &mut [u32], work: &mut [u8], at: u32) -> Registers {
    let r = pushed(r, frames, Kind::NodeElt, at);
    let closed = state_stack::nodes::close_node(r, frames, work);
    answer(out, b"closed", closed.is_some());
    let behind = closed.unwrap_or(r);
    let bindings = [0u32; Row::BINDINGS];
    let inners = [0u32; Row::INNERS];
    answer(
        out,
        b"valid",
        state::valid(behind, frames, &bindings, &inners, work),
    );
    behind
}

// A pop gives room back.
fn room_again(out: Stdout) {
    let mut frames = [0u32; Frame::TABLE];
    let r = in_node(&mut frames, Kind::PropertyElt);
    number(out, b"held", state_inner::held(r));
    let behind = state_stack::pop(r, &frames).unwrap_or(r);
    number(out, b"held", state_inner::held(behind));
}

// ---- the rules

// A state at its start, and one whose store is short.
fn starts(out: Stdout) {
    let frames = [0u32; Frame::TABLE];
    let bindings = [0u32; Row::BINDINGS];
    let inners = [0u32; Row::INNERS];
    let short = [0u8; Registers::STORE - 1];
    let r = started(false, 0);
    answer(out, b"started", is_valid(r, &frames));
    answer(
        out,
        b"short store",
        state::valid(r, &frames, &bindings, &inners, &short),
    );
}

// A base has bytes only where there is one.
fn bases(out: Stdout) {
    let frames = [0u32; Frame::TABLE];
    answer(
        out,
        b"base without one",
        is_valid(started(false, 1), &frames),
    );
    answer(out, b"base", is_valid(started(true, 1), &frames));
    let found = state_inner::base_in_force(started(true, 7), &frames);
    number(out, b"base of", length_of(found));
}

fn length_of(found: Option<Span>) -> usize {
    found.map_or(0, |span| span.len)
}

// By the rules, with no binding and a store of one letter?
fn is_valid(r: Registers, frames: &[u32]) -> bool {
    let bindings = [0u32; Row::BINDINGS];
    let inners = [0u32; Row::INNERS];
    let work = [97u8; Registers::STORE];
    state::valid(r, frames, &bindings, &inners, &work)
}

// ---- elements

// A property element in a node that is the root.
fn in_node(frames: &mut [u32], kind: Kind) -> Registers {
    let r = pushed(started(false, 0), frames, Kind::NodeElt, 0);
    pushed(r, frames, kind, 2)
}

fn pushed(r: Registers, frames: &mut [u32], kind: Kind, at: u32) -> Registers {
    state_stack::push(r, frames, kind, places(at), [0u32; 8], 0).unwrap_or(r)
}

// The places of an element with a name of one byte at `at`, and a main part of one byte behind it.
fn places(at: u32) -> [u32; Frame::PLACES] {
    let name = std::num::wrapping_add_u32(at, 1);
    let main = std::num::wrapping_add_u32(at, 2);
    [at, name, name, name, name, main, main, main, main]
}
