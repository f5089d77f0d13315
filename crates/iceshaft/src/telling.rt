// What is told on standard error, a line for each.
ghost use Rattle.std.specs.Prelude.{◌+◌, ◌≤◌, ◌<◌, ◌≡◌, ◌++◌, length};
ghost use Rattle.copy.specs.Copy.{Wrote};
ghost use Rattle.iceshaft.specs.Telling.{Came, goes_on, refusal_line, start_line, unknown_line, long_line};

use convert::{How, Outcome};
use spec::Refusal;
use std::io::Stderr;

// Room for a name, and what is said of it.
const LINE: usize = 4_192;

// Is the next document to be read? Behind a write that failed nothing is written, and a start that is refused would be
// refused again.
pub fn goes_on(how: How) -> bool
    ensures { result ≡ goes_on how }
{
    match how {
        How::Done(_) => true,
        How::Unwritten => false,
        How::Unread => true,
        How::Unstarted(_) => false,
    }
}

// How the document of this name ended, where it is not whole; of a call that failed with errno's text.
pub fn tell(stderr: Stderr, errno: i32, name: &[u8], outcome: Outcome)
    requires { (length name.now ≤ 4_096) × Came outcome }
{
    let event = outcome.event;
    let bytes = outcome.bytes;
    let how = outcome.how;
    match how {
        How::Done(answer) => tell_refused(stderr, name, answer, event),
        How::Unwritten => tell_failed(stderr, errno, name, b": write failed", event - 1, bytes),
        How::Unread => tell_failed(stderr, errno, name, b": read failed", event - 1, bytes),
        How::Unstarted(why) => tell_unstarted(stderr, why),
    }
}

// A refusal, if there is one.
fn tell_refused(stderr: Stderr, name: &[u8], answer: Result<(), Refusal>, event: usize)
    requires { length name.now ≤ 4_096 }
{
    if let Err(why) = answer {
        let mut line = [0u8; LINE];
        let n = refusal_line(&mut line, name, u8::from(why), event);
        tell_line(stderr, &line[..n]);
    }
}

fn refusal_line(line: &mut [u8], name: &[u8], number: u8, event: usize) -> usize
    requires { (length line.old ≡ 4_192) × (length name.now ≤ 4_096) }
    ensures { Wrote line.old line.new 0 result (refusal_line name.now number event) }
{
    copy::put(line, 0, name);
    let n = streams::put_number(line, name.len(), b": refused ", number as u64);
    let m = streams::put_number(line, n, b" at event ", event as u64);
    copy::put(line, m, b"\n");
    m + 1
}

// A start base that is none.
fn tell_unstarted(stderr: Stderr, why: Refusal) {
    let mut line = [0u8; LINE];
    let n = start_line(&mut line, u8::from(why));
    tell_line(stderr, &line[..n]);
}

fn start_line(line: &mut [u8], number: u8) -> usize
    requires { length line.old ≡ 4_192 }
    ensures { Wrote line.old line.new 0 result (start_line number) }
{
    let n = streams::put_number(line, 0, b"iceshaft: refused ", number as u64);
    copy::put(line, n, b" at start\n");
    n + 10
}

// An argument that is unknown where it stands.
pub fn tell_unknown(stderr: Stderr, word: &[u8])
    requires { length word.now ≤ 4_096 }
{
    let mut line = [0u8; LINE];
    let n = unknown_line(&mut line, word);
    tell_line(stderr, &line[..n]);
}

fn unknown_line(line: &mut [u8], word: &[u8]) -> usize
    requires { (length line.old ≡ 4_192) × (length word.now ≤ 4_096) }
    ensures { Wrote line.old line.new 0 result (unknown_line word.now) }
{
    copy::put(line, 0, b"iceshaft: unknown argument: ");
    copy::put(line, 28, word);
    copy::put(
        line,
        28 + word.len(),
        b"; it takes --pyx [--base IRI] [--xmp] [FILE..]\n",
    );
    28 + word.len() + 47
}

// An argument that is longer than is read.
pub fn tell_long(stderr: Stderr, i: usize) {
    let mut line = [0u8; LINE];
    let n = long_line(&mut line, i);
    tell_line(stderr, &line[..n]);
}

fn long_line(line: &mut [u8], i: usize) -> usize
    requires { length line.old ≡ 4_192 }
    ensures { Wrote line.old line.new 0 result (long_line i) }
{
    let n = streams::put_number(line, 0, b"iceshaft: argument ", i as u64);
    copy::put(line, n, b" is longer than 4096 bytes\n");
    n + 27
}

// A call that failed on the document of this name, and errno's text.
fn tell_failed(stderr: Stderr, errno: i32, name: &[u8], what: &[u8], events: usize, bytes: usize)
    requires { (length name.now ≤ 4_096) × (length what.now ≤ 64) }
{
    let mut line = [0u8; LINE];
    let n = named(&mut line, name, what);
    streams::tell(stderr, errno, &line[..n], events, bytes);
}

// A file that cannot be opened, and errno's text.
pub fn tell_unopened(stderr: Stderr, errno: i32, name: &[u8])
    requires { length name.now ≤ 4_096 }
{
    let mut line = [0u8; LINE];
    let n = named(&mut line, name, b": open failed");
    streams::fail(stderr, errno, &line[..n]);
}

// The name and what is said of it, to the front of `line`: their length.
fn named(line: &mut [u8], name: &[u8], what: &[u8]) -> usize
    requires { (length line.old ≡ 4_192) × (length name.now ≤ 4_096) × (length what.now ≤ 64) }
    ensures { Wrote line.old line.new 0 result (name.now ++ what.now) }
{
    copy::put(line, 0, name);
    copy::put(line, name.len(), what);
    name.len() + what.len()
}

// An output that takes no more loses what is told, and the program goes on.
pub fn tell_line(stderr: Stderr, line: &[u8]) {
    let _ = Print::write_all(&stderr, line);
}
