// The input and the standard output of a program: what a call answered, tried again where nothing could be moved yet, told
// where it failed.
#![tactic(auto)]

ghost use Rattle.std.specs.Prelude.{◌+◌, ◌≤◌, ◌≡◌, ◌++◌, map, length, take, pos, IfSome, IsNone};
ghost use Rattle.std.specs.Io.KnownBytes.{Consumes};
ghost use Rattle.std.specs.IoError.{error_kind, raw_os_error};
ghost use Rattle.spec.specs.NTriples.{decimal};
ghost use Rattle.copy.specs.Copy.{Wrote};
ghost use Rattle.streams.specs.Answers.{over, eintr, eagain, moved_of, waits_for, bytes_of, got_of, AtMost, begun, goes_on, after_write, printed_of, Prints, Fills};
ghost use Rattle.streams.specs.Telling.{shown, failure_line, in_line};

use label::Decimal;
use std::env::{Env, FillError};
use std::io::{Error, ErrorKind, Read, Stderr, Write};
use std::thread;

// The system's numbers of the errors that are told apart here.
const EINTR: i32 = 4;

const EIO: i32 = 5;

const EAGAIN: i32 = 11;

// The line of a failure, and of that the most that says what failed: room for the longest path.
const LINE: usize = 4_256;

const WHAT: usize = 4_160;

// The most of an argument that is told.
const WORD: usize = 256;

// Room for the text of an error.
const TEXT: usize = 160;

// A reader or a writer, and errno: the number of the last error of a call on it, 0 where there was none. No Option: the
// system's text for 0 is what is told of a write that took nothing without an error.
#[derive(Drop)]
pub struct Stream<T> {
    end: T,
    errno: i32,
}

// What a call that moves bytes came to: so many; none yet, and it is to be tried again; or it failed, and errno says
// why. Three answers; `moved_of` and `waits_for`, which docs/ARCHITECTURE.md names, say when each comes.
#[derive(Clone, Copy, Debug, PartialEq, Eq)]
pub enum Moved {
    Bytes(usize),
    Later,
    Failed,
}

// What came from the input: so many bytes, at least one; its end; or the read failed, and errno says why. `got_of`, which
// docs/ARCHITECTURE.md names, says when each comes.
#[derive(Clone, Copy, Debug, PartialEq, Eq)]
pub enum Got {
    Bytes(usize),
    End,
    Failed,
}

// How many bytes of a text standard output took, and whether these are all. Only `print` makes one: its fields are
// its own. A Result is no plainer: its callers count the bytes of a text that was cut too.
#[derive(Clone, Copy, Debug, PartialEq, Eq)]
pub struct Printed {
    whole: bool,
    bytes: usize,
}

// How far a text of `most` bytes is printed: so many of them were taken, and whether a write failed. `after_write` and
// `goes_on`, which docs/ARCHITECTURE.md names, speak of it.
#[derive(Clone, Copy, Debug, PartialEq, Eq)]
struct Printing {
    taken: usize,
    most: usize,
    failed: bool,
}

impl<T> Stream<T> {
    pub fn over(end: T) -> Self
        ensures { result ≡ over end }
    {
        Stream { end, errno: 0 }
    }

    // The number of the last error.
    pub fn errno(&self) -> i32
        ensures { result ≡ self.now.errno }
    {
        self.errno
    }
}

impl Moved {
    // A proved loop has to end, and nothing says that a byte can be moved at last: more tries than any run makes.
    const TRIES: usize = 17_592_186_044_416;

    // By what a call answered that was lent `most` bytes, and by errno: one that was interrupted, or would have had to
    // wait, is tried again.
    pub fn of(got: isize, error: i32, most: usize) -> Self
        ensures { result ≡ moved_of got error most }
    {
        if got >= 0 {
            return Moved::Bytes((got as usize).min(most));
        }
        if error == EINTR {
            return Moved::Later;
        }
        if error == EAGAIN {
            return Moved::Later;
        }
        Moved::Failed
    }

    // Whether to try again, with so many tries left.
    fn waits(self, tries: usize) -> bool
        ensures { result ≡ waits_for self tries }
    {
        match self {
            Moved::Bytes(_) => false,
            Moved::Later => tries > 0,
            Moved::Failed => false,
        }
    }

    // How many bytes a write took. None is a failure, whatever the call answered: of a text that has bytes it could be
    // tried for ever.
    fn bytes(self) -> usize
        ensures { result ≡ bytes_of self }
    {
        match self {
            Moved::Bytes(n) => n,
            Moved::Later => 0,
            Moved::Failed => 0,
        }
    }
}

impl Got {
    // By what a read came to: no byte is the end of the input. One that could move none in all its tries failed.
    pub fn of(moved: Moved) -> Self
        ensures { result ≡ got_of moved }
    {
        match moved {
            Moved::Bytes(n) => {
                if n == 0 {
                    return Got::End;
                }
                Got::Bytes(n)
            }
            Moved::Later => Got::Failed,
            Moved::Failed => Got::Failed,
        }
    }
}

impl Printing {
    // Before the first write.
    fn begun(most: usize) -> Self
        ensures { result ≡ begun most }
    {
        Printing {
            taken: 0,
            most,
            failed: false,
        }
    }

    // Is there more to write? Behind a write that failed there is not.
    fn goes_on(self) -> bool
        ensures { result ≡ goes_on self }
    {
        if self.failed {
            return false;
        }
        self.taken < self.most
    }

    // Behind a write that took `n` bytes: one that took none failed.
    fn after(self, n: usize) -> Self
        requires { self.taken + n ≤ self.most }
        ensures { result ≡ after_write self n }
    {
        Printing {
            taken: self.taken + n,
            most: self.most,
            failed: n == 0,
        }
    }

    fn printed(self) -> Printed
        ensures { result ≡ printed_of self }
    {
        Printed {
            whole: self.taken == self.most,
            bytes: self.taken,
        }
    }
}

impl Printed {
    pub fn is_whole(self) -> bool
        ensures { result ≡ self.whole }
    {
        self.whole
    }

    pub fn taken(self) -> usize
        ensures { result ≡ self.bytes }
    {
        self.bytes
    }
}

// The text to a writer, up to the first write that fails.
pub fn print<W: Write>(to: &mut Stream<W>, text: &[u8]) -> Printed
    ensures { Prints (length text.now) result }
{
    let mut printing = Printing::begun(text.len());
    // A turn takes what the call took, so no range counts them.
    while printing.goes_on() {
        let taken = printing.taken;
        let n = write(to, &text[taken..]);
        printing = printing.after(n);
    }
    printing.printed()
}

// How many bytes of the text the writer takes, as soon as it can take any.
fn write<W: Write>(to: &mut Stream<W>, text: &[u8]) -> usize
    ensures { result ≤ length text.now }
{
    // The tries are counted down, as `waits_for` has it.
    let mut moved = try_write(to, text);
    let mut tries = Moved::TRIES;
    while moved.waits(tries) {
        tries -= 1;
        thread::yield_now();
        moved = try_write(to, text);
    }
    moved.bytes()
}

fn try_write<W: Write>(to: &mut Stream<W>, text: &[u8]) -> Moved
    ensures { AtMost (length text.now) result }
{
    match to.end.write(text) {
        Ok(n) => Moved::of(n as isize, 0, text.len()),
        Err(error) => {
            to.errno = errno_of(&error);
            Moved::of(-1, to.errno, text.len())
        }
    }
}

// From a reader to the front of `into`, as soon as there is any. Into no room nothing can be read: that is an end too.
pub fn read<R: Read>(from: &mut Stream<R>, into: &mut [u8]) -> Got
    ensures { Fills (length into.old) result }
{
    // As in `write`, which differs in the call and in what none means.
    let mut moved = try_read(from, into);
    let mut tries = Moved::TRIES;
    while moved.waits(tries) {
        tries -= 1;
        thread::yield_now();
        moved = try_read(from, into);
    }
    Got::of(moved)
}

fn try_read<R: Read>(from: &mut Stream<R>, into: &mut [u8]) -> Moved
    ensures { AtMost (length into.old) result }
{
    match from.end.read(into) {
        Ok(n) => Moved::of(n as isize, 0, into.len()),
        Err(error) => {
            from.errno = errno_of(&error);
            Moved::of(-1, from.errno, into.len())
        }
    }
}

// Reads until `buf` is full, the input ends or a read fails: how many bytes are at its front.
pub fn read_full<R: Read>(from: &mut R, buf: &mut [u8]) -> usize
    ensures within { result ≤ length buf.new }
    ensures bytes { Consumes (R.remaining from.old) (R.remaining from.new) (take result buf.new) }
{
    let mut done = 0;
    // A turn takes what the call took, so no range counts them.
    while done < buf.len() {
        match from.read(&mut buf[done..]) {
            Ok(0) => return done,
            Ok(n) => done += n,
            Err(_) => return done,
        }
    }
    done
}

// The number by which the system knows the error. One that is not the system's has the number of its kind.
pub fn errno_of(error: &Error) -> i32
    ensures os { IfSome (raw_os_error error.now) (λ n. result ≡ n) }
    ensures interrupted { IsNone (raw_os_error error.now) → error_kind error.now ≡ ErrorKind.Interrupted → result ≡ pos eintr }
    ensures would_wait { IsNone (raw_os_error error.now) → error_kind error.now ≡ ErrorKind.WouldBlock → result ≡ pos eagain }
{
    match error.raw_os_error() {
        Some(n) => n,
        None => match error.kind() {
            ErrorKind::Interrupted => EINTR,
            ErrorKind::WouldBlock => EAGAIN,
            _ => EIO,
        },
    }
}

// One line on standard error: what failed, after how many whole events and bytes, and errno's text.
pub fn tell(to: Stderr, errno: i32, what: &[u8], events: usize, bytes: usize) {
    let mut line = [0u8; LINE];
    let most = what.len().min(WHAT);
    let n = failure_line(&mut line, &what[..most], events as u64, bytes as u64);
    fail(to, errno, &line[..n]);
}

// One line on standard error: what failed, and errno's text.
pub fn fail(to: Stderr, errno: i32, what: &[u8]) {
    let mut text = [0u8; TEXT];
    let n = errno_text(errno, &mut text);
    say(to, what);
    say(to, b": ");
    say(to, &text[..n]);
    say(to, b"\n");
}

// The system's text of an error, to the front of `text`: its length. The library puts the number behind it, in brackets.
fn errno_text(errno: i32, text: &mut [u8]) -> usize
    ensures { result ≤ length text.new }
{
    let mut rest = &mut text[..];
    let _ = write!(rest, "{}", Error::from_raw_os_error(errno));
    let end = copy::find(text, b'(');
    end.saturating_sub(1)
}

// An output that takes no more loses what is told, and the program goes on.
fn say(to: Stderr, text: &[u8]) {
    let _ = Print::write_all(&to, text);
}

// The line up to errno's text, to the front of `line`: its length.
fn failure_line(line: &mut [u8], what: &[u8], events: u64, bytes: u64) -> usize
    requires { (length line.old ≡ 4_256) × (length what.now ≤ 4_160) }
    ensures { Wrote line.old line.new 0 result (failure_line what.now events bytes) }
{
    copy::put(line, 0, what);
    let n = put_count(line, what.len(), b" after ", events);
    let m = put_count(line, n, b" whole events and ", bytes);
    copy::put(line, m, b" bytes");
    m + 6
}

// The text and a number behind it, 0 among them, from `at` on: where they end.
fn put_count(line: &mut [u8], at: usize, text: &[u8], number: u64) -> usize
    requires { at + length text.now + 20 ≤ length line.old }
    ensures { Wrote line.old line.new at result (text.now ++ shown number) }
{
    if number > 0 {
        return put_number(line, at, text, number);
    }
    copy::put(line, at, text);
    copy::put(line, at + text.len(), b"0");
    at + text.len() + 1
}

// The text and a number from 1 on behind it, from `at` on: where they end.
pub fn put_number(line: &mut [u8], at: usize, text: &[u8], number: u64) -> usize
    requires { at + length text.now + 20 ≤ length line.old }
    ensures { Wrote line.old line.new at result (text.now ++ decimal number) }
{
    let decimal = Decimal::of(number);
    let from = decimal.from;
    let digits = decimal.digits;
    copy::put(line, at, text);
    copy::put(line, at + text.len(), &digits[from..]);
    at + text.len() + (20 - from)
}

// One line on standard error: argument `i` is unknown to the program, and what it takes.
pub fn tell_unknown<E: Env>(env: &E, to: Stderr, program: &[u8], i: usize, takes: &[u8]) {
    let mut word = [0u8; WORD];
    let n = argument(env, i, &mut word);
    say(to, program);
    say(to, b": unknown argument: ");
    say(to, &word[..n]);
    say(to, b"; ");
    say(to, takes);
    say(to, b"\n");
}

// Argument `i` to the front of `word`, or as many of its first bytes as there is room for: how many they are.
fn argument<E: Env>(env: &E, i: usize, word: &mut [u8]) -> usize
    ensures { result ≤ length word.new }
{
    let n = match env.arg(i, word) {
        Ok(n) => n,
        Err(FillError::TooLong) => word.len(),
        Err(FillError::NotPresent) => 0,
    };
    keep_to_line(word);
    n
}

// How many arguments the program was started with, its own name among them.
pub fn argument_count<E: Env>(env: &E) -> usize {
    let mut word = [0u8; 1];
    for n in 0..usize::MAX {
        if let Err(FillError::NotPresent) = env.arg(n, &mut word) {
            return n;
        }
    }
    usize::MAX
}

// A word that is to be told in one line.
pub fn keep_to_line(word: &mut [u8])
    ensures { word.new ≡ map in_line word.old }
{
    for b in word.iter_mut() {
        *b = in_line(*b);
    }
}

// A line end, or another control character, would break the line: a mark stands in its place.
fn in_line(b: u8) -> u8
    ensures { result ≡ in_line b }
{
    if b < b' ' { b'?' } else { b }
}
