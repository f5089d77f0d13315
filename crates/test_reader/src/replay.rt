// Documents run through the calls `start`, `step` and `finish`, and compared with what they must give.
ghost use Rattle.std.specs.Prelude.{◌+◌, ◌≤◌, min, ◌≡◌, is_some, length};
ghost use Rattle.reader_contract.specs.Meaning.{base_of, text_of, meaning_of};
ghost use Rattle.reader_contract.specs.Meets.{lengths_right};
ghost use Rattle.test_reader.specs.Lines.{part_of, Within, Behind};
ghost use Rattle.test_reader.specs.Ways.{Ends, Runs, Turns, Finished, way_of, advanced, stopped, ended_of};

use reader_contract::fed::Fed;
use reader_contract::{Report, State};
use spec::Mode;
use state::Registers;
use state_ids::IdTable;
use std::fs::File;
use std::io::Stdout;
use std::rt::Files;

// How a document ended: its state, the number of its last call, and whether its lines were the expected ones.
#[derive(Clone, Copy)]
pub struct Ended {
    pub state: State,
    pub number: u8,
    pub same: bool,
}

// How many documents there were, and how many of them were as they must be.
#[derive(Clone, Copy)]
pub struct Tally {
    pub count: usize,
    pub same: usize,
}

// How far a document is: its state, the last number, whether no further call is due; how many bytes of the input were consumed and of
// the expected lines seen, and whether all lines were those so far.
#[derive(Clone, Copy)]
struct Way {
    state: State,
    number: u8,
    over: bool,
    at: usize,
    seen: usize,
    same: bool,
}

impl Ended {
    // The longest file of vectors.
    pub const FILE: usize = 1_048_576;
}

impl Way {
    fn of(state: State) -> Self
        ensures { result ≡ way_of state }
    {
        Way {
            state,
            number: 0,
            over: false,
            at: 0,
            seen: 0,
            same: true,
        }
    }

    // With as many bytes of expected lines, which must all have been seen.
    fn ended(self, expected: usize) -> Ended
        ensures { result ≡ ended_of self expected }
    {
        let state = self.state;
        Ended {
            state,
            number: self.number,
            same: self.same & (self.seen == expected),
        }
    }
}

// All documents of a file, in this mode, a verdict on each to a line, and how many there were.
//
// A document is a line `= NAME`, or `= NAME BASE`, its PYX lines, a line `> NUMBER` with the number that it must end in, the lines that it
// must give, and a line `.`. These marks begin no line of PYX or N-Triples.
pub fn replay_file<R: Files + Eprint>(rt: &R, stdout: Stdout, path: &str, mode: Mode) -> Tally
    ensures { result.same ≤ result.count }
{
    let mut file = match File::open(rt, path) {
        Ok(file) => file,
        Err(why) => {
            let _ = eprintln!(rt; "{path}: {why}");
            return Tally { count: 0, same: 0 };
        }
    };
    let mut text = file_buffer();
    let n = streams::read_full(&mut file, &mut text);
    replay_all(stdout, &text[..n], mode)
}

// A document from start to finish, or to its refusal.
pub fn run(
    mode: Mode,
    base: Option<&[u8]>,
    input: &[u8],
    expected: &[u8],
    work: &mut [u8],
    ids: &mut [u8],
    out: &mut [u8],
) -> Ended
    ensures { Runs mode (length out.old) (lengths_right work.old ids.old) (base_of (is_some base.entry) (text_of base.entry)) input.now expected.now result }
{
    let before = State::none();
    let report = reader::start(before, mode, base, work, ids);
    let state = report.state;
    let number = report.number();
    if number > 0 {
        return Ended {
            state,
            number,
            same: 0 == expected.len(),
        };
    }
    go_on(state, input, expected, work, ids, out)
}

// A document from a state that it is in.
pub fn go_on(
    state: State,
    input: &[u8],
    expected: &[u8],
    work: &mut [u8],
    ids: &mut [u8],
    out: &mut [u8],
) -> Ended
    ensures { Ends (length out.old) input.now expected.now (meaning_of state work.old ids.old) result work.new ids.new }
{
    let mut way = Way::of(state);
    // Events are as long as they are: `over` ends it.
    while !way.over {
        way = turn(way, input, expected, work, ids, out);
    }
    way.ended(expected.len())
}

// Room for a file.
pub fn file_buffer() -> [u8; Ended::FILE]
    ensures { 1_048_576 ≡ length result }
{
    [0; Ended::FILE]
}

// `n` further than `at`, and no further than `most`.
pub fn ahead(at: usize, n: usize, most: usize) -> usize
    ensures { result ≡ min (at + n) most }
{
    if at > most {
        return most;
    }
    if n > most - at {
        return most;
    }
    at + n
}

// The bytes from `from` up to `to`, or none where there are no such.
pub fn part(s: &[u8], from: usize, to: usize) -> &[u8]
    ensures { result.now ≡ part_of from to s.now }
{
    if from > to {
        return &s[..0];
    }
    if to > s.len() {
        return &s[..0];
    }
    &s[from..to]
}

// Where the next line starts, or the end.
pub fn line_after(s: &[u8], from: usize) -> usize
    ensures { Behind from s.now result }
{
    for i in from..s.len() {
        if s[i] == b'\n' {
            return i + 1;
        }
    }
    s.len()
}

fn replay_all(stdout: Stdout, text: &[u8], mode: Mode) -> Tally
    ensures { result.same ≤ result.count }
{
    let mut work = [0u8; Registers::STORE];
    let mut ids = [0u8; IdTable::BYTES];
    let mut out = [0u8; Fed::ROOM];
    let tally = replay_each(stdout, text, mode, &mut work, &mut ids, &mut out);
    print_number(stdout, tally.same);
    print(stdout, b" the same of ");
    print_number(stdout, tally.count);
    print(stdout, b"\n");
    tally
}

// A document finds stores and output as the one before left them.
fn replay_each(
    stdout: Stdout,
    text: &[u8],
    mode: Mode,
    work: &mut [u8],
    ids: &mut [u8],
    out: &mut [u8],
) -> Tally
    ensures { result.same ≤ result.count }
{
    let mut at = 0;
    let mut count: usize = 0;
    let mut same: usize = 0;
    // From document to document.
    while at < text.len() {
        let end = line_with(text, at, b'.');
        same += replay_document(stdout, part(text, at, end), mode, work, ids, out);
        count += 1;
        at = line_after(text, end);
    }
    Tally { count, same }
}

// The document up to its line `.`: 1 where it is as it must be.
fn replay_document(
    stdout: Stdout,
    doc: &[u8],
    mode: Mode,
    work: &mut [u8],
    ids: &mut [u8],
    out: &mut [u8],
) -> usize
    ensures { result ≤ 1 }
{
    let body = line_after(doc, 0);
    let wanted = line_with(doc, body, b'>');
    let lines = line_after(doc, wanted);
    let name = word_end(doc, 2);
    let base = ahead(name, 1, body);
    let ended = run(
        mode,
        (base < body).then_some(part(doc, base, word_end(doc, base))),
        part(doc, body, wanted),
        part(doc, lines, doc.len()),
        work,
        ids,
        out,
    );
    let digits = ahead(wanted, 2, lines);
    verdict(
        stdout,
        part(doc, 2, name),
        ended,
        part(doc, digits, word_end(doc, digits)),
    )
}

// One line: did the document end in the number that is written there, with its lines?
fn verdict(stdout: Stdout, name: &[u8], ended: Ended, wanted: &[u8]) -> usize
    ensures { result ≤ 1 }
{
    if ended.same & is_written(ended.number, wanted) {
        print(stdout, b"same ");
        print(stdout, name);
        if ended.number > 0 {
            print(stdout, b" refused ");
            print_number(stdout, ended.number as usize);
        }
        print(stdout, b"\n");
        return 1;
    }
    print(stdout, b"DIFFERENT ");
    print(stdout, name);
    print(stdout, b" got ");
    print_number(stdout, ended.number as usize);
    print(stdout, b"\n");
    0
}

fn is_written(number: u8, text: &[u8]) -> bool {
    let ones = b'0' + number % 10;
    if number < 10 {
        return copy::equal(&[ones], text);
    }
    let tens = b'0' + number / 10 % 10;
    if number < 100 {
        return copy::equal(&[tens, ones], text);
    }
    copy::equal(&[b'0' + number / 100, tens, ones], text)
}

// One step with all that is left of the input; behind the last event, finish.
fn turn(
    way: Way,
    input: &[u8],
    expected: &[u8],
    work: &mut [u8],
    ids: &mut [u8],
    out: &mut [u8],
) -> Way
    ensures { Turns (length out.old) input.now expected.now way work.old ids.old result work.new ids.new }
{
    let before = way.state;
    let left = part(input, way.at, input.len());
    let report = reader::step(before, work, ids, left, true, out);
    let number = report.number();
    if number == 0 {
        return advance(way, report, input.len(), expected, out);
    }
    let state = report.state;
    if number > 1 {
        return stop(way, state, number);
    }
    end(way, state, work, ids)
}

// Behind an event that is done: its lines must be the next ones.
fn advance(way: Way, report: Report, most: usize, expected: &[u8], out: &[u8]) -> Way
    ensures { result ≡ advanced way report most expected.now out.now }
{
    let state = report.state;
    let left = part(expected, way.seen, expected.len());
    let good = copy::begins(left, part(out, 0, report.written));
    Way {
        state,
        number: 0,
        over: false,
        at: ahead(way.at, report.consumed, most),
        seen: ahead(way.seen, report.written, expected.len()),
        same: way.same & good,
    }
}

fn end(way: Way, state: State, work: &[u8], ids: &[u8]) -> Way
    ensures { Finished way state work.now ids.now result }
{
    let report = reader::finish(state, work, ids);
    let state = report.state;
    stop(way, state, report.number())
}

fn stop(way: Way, state: State, number: u8) -> Way
    ensures { result ≡ stopped way state number }
{
    Way {
        state,
        number,
        over: true,
        ..way
    }
}

// Where the first line that begins with `mark` starts, from the line at `from` on, or the end.
fn line_with(s: &[u8], from: usize, mark: u8) -> usize
    ensures { Within from s.now result }
{
    // From line to line.
    let mut i = from;
    while i < s.len() {
        if s[i] == mark {
            return i;
        }
        i = line_after(s, i);
    }
    s.len()
}

// Where the word that starts at `from` ends: before the first space or line end.
fn word_end(s: &[u8], from: usize) -> usize {
    for i in from..s.len() {
        if s[i] <= b' ' {
            return i;
        }
    }
    s.len()
}

// An output that takes no more loses what is printed, and the program goes on.
fn print(stdout: Stdout, s: &[u8]) {
    let _ = stdout.write_all(s);
}

fn print_number(stdout: Stdout, n: usize) {
    let _ = print!(stdout; "{n}");
}
