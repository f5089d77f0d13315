// Streams of events, parted by the byte FF in the input. Of each are printed where the first event of every beginning ends,
// as long as more may follow and where no more does, and what each event of the whole is.
use pyx::{Event, FirstError};
use std::io::{Stdin, Stdout};

pub fn try_all(mut from: Stdin, out: Stdout) {
    let mut input = [0u8; 65536];
    let n = streams::read_full(&mut from, &mut input);
    streams(out, &input[..n]);
    longest(out);
    scratches(out);
}

fn streams(out: Stdout, input: &[u8]) {
    for s in input.split_inclusive(|b| *b == 255) {
        stream(out, s.strip_suffix(&[255]).unwrap_or(s));
    }
}

fn stream(out: Stdout, s: &[u8]) {
    print(out, b"stream of ");
    print_number(out, s.len());
    print(out, b"\n  more may follow:");
    cuts(out, s, false);
    print(out, b"\n  no more:");
    cuts(out, s, true);
    print(out, b"\n");
    events(out, s);
}

// The first event of every beginning, where it differs from that of the beginning one byte shorter.
fn cuts(out: Stdout, s: &[u8], last: bool) {
    let mut before = Ok(0);
    for n in 0..s.len() {
        let now = cut(&s[..n], last);
        print_change(out, n, now, before);
        before = now;
    }
    print_change(out, s.len(), cut(s, last), before);
}

// How many bytes the first event has, or why there is none.
fn cut(s: &[u8], last: bool) -> Result<usize, &'static str> {
    pyx::first_event(s, last).map_err(|e| match e {
        FirstError::Wait => "wait",
        FirstError::Unended => "unended",
        FirstError::TooLong => "too long",
    })
}

fn print_change(
    out: Stdout,
    n: usize,
    now: Result<usize, &'static str>,
    before: Result<usize, &'static str>,
) {
    if now == before {
        return;
    }
    print(out, b" ");
    print_number(out, n);
    print(out, b" ");
    match now {
        Ok(n) => print_number(out, n),
        Err(why) => print(out, why.as_bytes()),
    }
    print(out, b";");
}

// The spans have places for two attributes.
fn events(out: Stdout, s: &[u8]) {
    let mut scratch = [0u8; Event::MOST_BYTES];
    let mut spans = [0u32; 8];
    let mut rest = s;
    while let Ok(n) = pyx::first_event(rest, true) {
        event(out, &rest[..n], &mut scratch, &mut spans);
        rest = pyx::rest(rest, n);
    }
}

fn event(out: Stdout, s: &[u8], scratch: &mut [u8], spans: &mut [u32]) {
    let decoded = pyx::decode(s, scratch, spans);
    print_event(out, decoded, scratch, spans);
    print(out, b"\n");
}

fn print_event(out: Stdout, event: Event, scratch: &[u8], spans: &[u32]) {
    match event {
        Event::Malformed => print(out, b"  malformed"),
        Event::NoScratch => print(out, b"  no scratch"),
        Event::Instruction => print(out, b"  instruction"),
        Event::Crowded => print(out, b"  crowded"),
        Event::Text(n) => print_named(out, b"  text ", scratch, n),
        Event::Closing(n) => print_named(out, b"  closing ", scratch, n),
        Event::Opening(n, colon, k) => {
            print_named(out, b"  opening ", scratch, n);
            print(out, b" ");
            print_number(out, colon);
            print_attributes(out, scratch, spans, k);
        }
    }
}

fn print_named(out: Stdout, what: &[u8], scratch: &[u8], n: usize) {
    print(out, what);
    print_part(out, scratch, 0, n);
}

fn print_attributes(out: Stdout, scratch: &[u8], spans: &[u32], k: usize) {
    for span in spans.chunks_exact(4).take(k) {
        print_attribute(out, scratch, span[0], span[1], span[2], span[3]);
    }
}

fn print_attribute(out: Stdout, scratch: &[u8], start: u32, name: u32, colon: u32, value: u32) {
    print(out, b"\n    ");
    print_number(out, start as usize);
    print(out, b" ");
    print_part(out, scratch, start as usize, name as usize);
    print(out, b" ");
    print_number(out, colon as usize);
    print(out, b" ");
    print_part(out, scratch, start as usize + name as usize, value as usize);
}

// So many bytes of the scratch from a place on, if it has them.
fn print_part(out: Stdout, scratch: &[u8], from: usize, n: usize) {
    if scratch.len() < from {
        return;
    }
    if scratch.len() - from < n {
        return;
    }
    let end = from + n;
    show(out, &scratch[from..end]);
}

// Between apostrophes, what is no letter, digit or mark of ASCII in hexadecimal.
fn show(out: Stdout, s: &[u8]) {
    print(out, b"'");
    for b in s {
        show_byte(out, *b);
    }
    print(out, b"'");
}

fn show_byte(out: Stdout, b: u8) {
    if b.is_ascii_graphic() {
        print(out, &[b]);
        return;
    }
    print(out, b"<");
    let _ = print!(out; "{b:02x}");
    print(out, b">");
}

// Events of the most bytes, and of one more.
fn longest(out: Stdout) {
    let mut s = [97u8; Event::MOST_BYTES + 3];
    s[0] = b'-';
    s[Event::MOST_BYTES - 1] = b'\n';
    print(out, b"longest:");
    print_front(out, &s, 32_768, false);
    print_front(out, &s, 32_768, true);
    print_front(out, &s, 32_769, false);
    s[Event::MOST_BYTES] = b'-';
    print_front(out, &s, 32_769, false);
    unended(out);
}

// And a line that does not end there.
fn unended(out: Stdout) {
    let mut s = [97u8; Event::MOST_BYTES + 3];
    let mut scratch = [0u8; Event::MOST_BYTES];
    let mut spans = [0u32; 8];
    s[0] = b'-';
    s[Event::MOST_BYTES] = b'-';
    print_front(out, &s, 32_768, true);
    print_front(out, &s, 32_769, true);
    print_front(out, &s, 32_771, true);
    print(out, b"\n");
    event(out, &s[..32_769], &mut scratch, &mut spans);
}

// Where the first event of the first n bytes ends.
fn print_front(out: Stdout, s: &[u8], n: usize, last: bool) {
    if n <= s.len() {
        print_change(out, n, cut(&s[..n], last), Ok(0));
    }
}

// A scratch that is just long enough, one that is too short, and a line that no event has.
fn scratches(out: Stdout) {
    let mut scratch = [0u8; 9];
    let mut spans = [0u32; 8];
    event(out, b"(a\nAb cd\n", &mut scratch, &mut spans);
    event(out, b"(a\nAb cde\n", &mut scratch, &mut spans);
    event(out, b"(a\n b cd\n", &mut scratch, &mut spans);
    event(out, b"", &mut scratch, &mut spans);
}

// An output that takes no more loses what is printed, and the program goes on.
fn print(out: Stdout, s: &[u8]) {
    let _ = out.write_all(s);
}

fn print_number(out: Stdout, n: usize) {
    let _ = print!(out; "{n}");
}
