// Answers of the crate utils for the bytes on each line of the input, written as pairs of hexadecimal digits with one byte between them.
#![tactic(auto)]

ghost use Rattle.std.specs.Prelude.{◌<◌};

use std::io::Stdout;
use utils::{Decoded, Name};

fn main(rt: HostRuntime) {
    let mut input = [0u8; 65536];
    let n = streams::read_full(&mut rt.stdin(), &mut input);
    report(rt.stdout(), b"");
    report_lines(rt.stdout(), &input[..n]);
}

// Each line's bytes are gathered, at most 32.
fn report_lines(out: Stdout, input: &[u8]) {
    let mut bytes = [0u8; 32];
    let mut n = 0;
    for pair in input.chunks_exact(3) {
        if n == bytes.len() {
            return;
        }
        bytes[n] = digit(pair[0]) * 16 + digit(pair[1]);
        n += 1;
        if pair[2] == b'\n' {
            report(out, &bytes[..n]);
            n = 0;
        }
    }
}

// The value of a hexadecimal digit in lower case.
fn digit(b: u8) -> u8
    ensures { result < 16 }
{
    if b >= 97 { (b - 97) % 6 + 10 } else { b % 16 }
}

fn report(out: Stdout, s: &[u8]) {
    print_bytes(out, s);
    print_first(out, s);
    say(out, utils::is_text(s), b", text");
    say(out, utils::is_blank(s), b", blank");
    say(out, utils::is_nc_name(s), b", NCName");
    print_name(out, s);
    print(out, b"\n");
}

fn print_bytes(out: Stdout, s: &[u8]) {
    for b in s {
        print_hex(out, u64::from(*b), 2);
        print(out, b" ");
    }
}

fn print_first(out: Stdout, s: &[u8]) {
    match utils::decode(s) {
        Decoded::End => {
            print(out, b"end");
        }
        Decoded::Malformed => print_malformed(out, s),
        Decoded::Character(c, n) => print_character(out, c, n),
    }
}

fn print_malformed(out: Stdout, s: &[u8]) {
    print(out, b"malformed");
    if let Some(first) = s.first() {
        print(out, b", leading ones ");
        print_decimal(out, utils::sequence_length(*first) as u64);
    }
}

fn print_character(out: Stdout, c: u32, n: usize) {
    print(out, b"U+");
    print_hex(out, c as u64, 4);
    print(out, b" of ");
    print_decimal(out, n as u64);
    say(out, utils::is_char(c), b", Char");
    say(out, utils::is_name_start_char(c), b", NameStartChar");
    say(out, utils::is_name_char(c), b", NameChar");
}

fn print_name(out: Stdout, s: &[u8]) {
    match utils::qname(s) {
        Name::NotName => {}
        Name::Local => {
            print(out, b", local name");
        }
        Name::Prefixed(k) => {
            print(out, b", colon at ");
            print_decimal(out, k as u64);
        }
    }
}

fn say(out: Stdout, yes: bool, words: &[u8]) {
    if yes {
        print(out, words);
    }
}

// An output that takes no more loses what is printed, and the program goes on.
fn print(out: Stdout, s: &[u8]) {
    let _ = out.write_all(s);
}

fn print_decimal(out: Stdout, n: u64) {
    let _ = print!(out; "{n}");
}

fn print_hex(out: Stdout, n: u64, width: usize) {
    let _ = print!(out; "{n:0width$x}");
}
