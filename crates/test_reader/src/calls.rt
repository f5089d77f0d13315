// What no file of documents can hold: output one byte short, input that is no text or not whole, stores of another size, states that are
// not the reader's, and the last label. What each is, and the number that a call gives.
use crate::replay::{ahead, part};
use reader_contract::fed::Fed;
use reader_contract::{Report, State};
use spec::Mode;
use state::Registers;
use state_ids::IdTable;
use state_words::Frame;
use std::io::Stdout;

// What is made of a state by hand: nothing; another number of open elements, end of what is held, number of labels; another word of the
// table of elements; another number of rdf:IDs.
#[derive(Clone, Copy)]
enum Change {
    Nothing,
    Depth(usize),
    Top(usize),
    Labels(u64),
    Word(usize, u32),
    Ids(usize),
}

impl Change {
    fn of(self, state: State) -> State {
        let mut registers = state.registers;
        let mut frames = state.frames;
        let bindings = state.bindings;
        let inners = state.inners;
        let mut ids = state.ids;
        match self {
            Change::Nothing => {}
            Change::Depth(n) => registers.counts.depth = n,
            Change::Top(n) => registers.store.top = n,
            Change::Labels(n) => registers.counts.labels = n,
            Change::Word(i, word) => {
                if i < Frame::TABLE {
                    frames[i] = word;
                }
            }
            Change::Ids(n) => ids.count = n,
        }
        State {
            registers,
            frames,
            bindings,
            inners,
            ids,
        }
    }
}

pub fn try_all(stdout: Stdout) {
    rooms(stdout);
    room_of_id(stdout);
    incomplete(stdout);
    not_pyx(stdout);
    stores(stdout);
    states(stdout);
    counters(stdout);
}

// ---- output room

fn rooms(stdout: Stdout) {
    let mut text = [0u8; 256];
    let at = root(&mut text);
    let mut short = [0u8; 79];
    let mut exact = [0u8; 80];
    repeat(
        stdout,
        b"a node",
        part(&text, 0, at),
        &mut short,
        &mut exact,
    );
}

// The rdf:ID must not have been entered where the event is to be repeated.
fn room_of_id(stdout: Stdout) {
    let mut text = [0u8; 256];
    let at = root(&mut text);
    let at = add(&mut text, at, b"Axml:base http://e/\nAr:ID i\n");
    let mut short = [0u8; 78];
    let mut exact = [0u8; 79];
    repeat(
        stdout,
        b"a node with rdf:ID",
        part(&text, 0, at),
        &mut short,
        &mut exact,
    );
}

// The first event with a byte too little, and then with room.
fn repeat(stdout: Stdout, what: &[u8], text: &[u8], short: &mut [u8], exact: &mut [u8]) {
    let mut work = [0u8; Registers::STORE];
    let mut ids = [0u8; IdTable::BYTES];
    let state = begun(&mut work, &ids);
    print(stdout, b"one byte short, ");
    let state = step(stdout, what, state, &mut work, &mut ids, text, true, short);
    print(stdout, b"just room, ");
    step(stdout, what, state, &mut work, &mut ids, text, true, exact);
    print(stdout, exact);
}

// ---- input

fn incomplete(stdout: Stdout) {
    first_step(
        stdout,
        b"an event that may go on",
        b"(e:a\nAxmlns:e http://e/\n",
        false,
    );
    first_step(stdout, b"a line that goes on", b"(e:a", false);
    first_step(stdout, b"nothing, where more may follow", b"", false);
    first_step(stdout, b"nothing, and no more follows", b"", true);
}

fn not_pyx(stdout: Stdout) {
    first_step(stdout, b"not UTF-8", b"-\xff\n", true);
    first_step(stdout, b"a forbidden character", b"-\x01\n", true);
    first_step(stdout, b"the last line unended", b"-x", true);
}

// ---- what is lent, and the state

fn stores(stdout: Stdout) {
    let mut work = [0u8; Registers::STORE];
    let mut short = [0u8; Registers::STORE - 1];
    let mut ids = [0u8; IdTable::BYTES];
    let mut few = [0u8; IdTable::BYTES - 1];
    begins(stdout, b"a short work store", &mut short, &mut ids);
    begins(stdout, b"a short ID store", &mut work, &mut few);
    begins(stdout, b"no document", &mut work, &mut ids);
}

// Start with the stores, and step and finish of no document.
fn begins(stdout: Stdout, what: &[u8], work: &mut [u8], ids: &mut [u8]) {
    let before = State::none();
    let started = reader::start(before, Mode::base(), None, work, ids);
    print(stdout, b"start, ");
    report(stdout, what, started);
    behind(stdout, what, before, work, ids);
}

fn states(stdout: Stdout) {
    state(stdout, b"the root's end", Change::Nothing, b")e:a\n");
    state(stdout, b"a wrong end", Change::Nothing, b")e:b\n");
    state(
        stdout,
        b"65 open elements in a state",
        Change::Depth(65),
        b"?x\n",
    );
    state(
        stdout,
        b"a work store used beyond its end",
        Change::Top(65_537),
        b"?x\n",
    );
    state(
        stdout,
        b"a root that starts at 1",
        Change::Word(1, 1),
        b"?x\n",
    );
    state(stdout, b"513 rdf:IDs in a state", Change::Ids(513), b"?x\n");
}

// 99,999,999 is the last label, and the last rdf:li of a node.
fn counters(stdout: Stdout) {
    let last = Change::Labels(99_999_998);
    state(
        stdout,
        b"label 99,999,999",
        last,
        b"(e:a\n(e:a\n)e:a\n)e:a\n)e:a\n",
    );
    state(
        stdout,
        b"label 100,000,000",
        last,
        b"(e:a\n(e:a\n)e:a\n(e:a\n",
    );
    let last = Change::Word(16, 99_999_998);
    state(stdout, b"rdf:li 99,999,999", last, b"(r:li\n)r:li\n)e:a\n");
    state(
        stdout,
        b"rdf:li 100,000,000",
        last,
        b"(r:li\n)r:li\n(r:li\n",
    );
}

// A document whose root is open, its state changed, and what follows; then a step and finish behind it.
fn state(stdout: Stdout, what: &[u8], change: Change, input: &[u8]) {
    let mut work = [0u8; Registers::STORE];
    let mut ids = [0u8; IdTable::BYTES];
    let mut out = [0u8; Fed::ROOM];
    let state = change.of(opened(stdout, &mut work, &mut ids));
    let ended = crate::replay::go_on(state, input, b"", &mut work, &mut ids, &mut out);
    line(stdout, what, ended.number);
    behind(stdout, what, ended.state, &mut work, &mut ids);
}

// A document whose root is open.
fn opened(stdout: Stdout, work: &mut [u8], ids: &mut [u8]) -> State {
    let state = begun(work, ids);
    let mut text = [0u8; 256];
    let at = root(&mut text);
    let mut out = [0u8; 256];
    step(
        stdout,
        b"the root's start",
        state,
        work,
        ids,
        part(&text, 0, at),
        true,
        &mut out,
    )
}

fn behind(stdout: Stdout, what: &[u8], state: State, work: &mut [u8], ids: &mut [u8]) {
    let mut out = [0u8; 256];
    print(stdout, b"finish behind ");
    report(stdout, what, reader::finish(state, work, ids));
    print(stdout, b"step behind ");
    step(stdout, what, state, work, ids, b"?x\n", true, &mut out);
}

// The first step of a document.
fn first_step(stdout: Stdout, what: &[u8], input: &[u8], last: bool) {
    let mut work = [0u8; Registers::STORE];
    let mut ids = [0u8; IdTable::BYTES];
    let mut out = [0u8; 256];
    let state = begun(&mut work, &ids);
    step(
        stdout, what, state, &mut work, &mut ids, input, last, &mut out,
    );
}

// A document that begins without a base.
fn begun(work: &mut [u8], ids: &[u8]) -> State {
    let started = reader::start(State::none(), Mode::base(), None, work, ids);
    started.state
}

// A step, told by what it is on.
fn step(
    stdout: Stdout,
    what: &[u8],
    state: State,
    work: &mut [u8],
    ids: &mut [u8],
    input: &[u8],
    last: bool,
    out: &mut [u8],
) -> State {
    let done = reader::step(state, work, ids, input, last, out);
    let state = done.state;
    report(stdout, what, done);
    state
}

// ---- texts

// A root's start tag that may go on.
fn root(text: &mut [u8]) -> usize {
    add(
        text,
        0,
        b"(e:a\nAxmlns:e http://e/\nAxmlns:r http://www.w3.org/1999/02/22-rdf-syntax-ns#\n",
    )
}

// `s` behind the first `at` bytes of the text: how many there are then.
fn add(text: &mut [u8], at: usize, s: &[u8]) -> usize {
    copy::put(text, at, s);
    ahead(at, s.len(), text.len())
}

// ---- lines

fn report(stdout: Stdout, what: &[u8], done: Report) {
    line(stdout, what, done.number());
}

fn line(stdout: Stdout, what: &[u8], number: u8) {
    print(stdout, what);
    print(stdout, b": ");
    print_number(stdout, number as usize);
    print(stdout, b"\n");
}

// An output that takes no more loses what is printed, and the program goes on.
fn print(stdout: Stdout, s: &[u8]) {
    let _ = stdout.write_all(s);
}

fn print_number(stdout: Stdout, n: usize) {
    let _ = print!(stdout; "{n}");
}
