// Replays the vectors of data/, each result on a line of its own, and then the bounds: no form, the room, the length.
#![tactic(auto)]

use resolve::ResolveError;
use std::fs::File;
use std::io::Stdout;

fn main(rt: HostRuntime) {
    let out = rt.stdout();
    let path = "vectors-resolve.tsv";
    let mut file = match File::open(&rt, path) {
        Ok(file) => file,
        Err(why) => {
            let _ = eprintln!(rt; "{path}: {why}");
            return;
        }
    };
    let mut text = [0u8; 32768];
    let n = streams::read_full(&mut file, &mut text);
    replay_all(out, &text[..n]);
    forms(out);
    rooms(out);
    lengths(out);
}

fn replay_all(out: Stdout, text: &[u8]) {
    for line in text.split_inclusive(|b| *b == b'\n') {
        replay(out, line.strip_suffix(b"\n").unwrap_or(line));
    }
}

// Base, tab, reference, and behind a second tab what is not read here.
fn replay(out: Stdout, line: &[u8]) {
    let mut fields = line.split(|b| *b == b'\t');
    if let (Some(base), Some(reference)) = (fields.next(), fields.next()) {
        let mut area = [0u8; 2048];
        show(out, base, reference, &mut area);
    }
}

// A path that begins `//` without an authority before it, and with one.
fn forms(out: Stdout) {
    let mut area = [0u8; 64];
    show(out, b"a:b", b"/..//c", &mut area);
    show(out, b"a:b", b"/.//c", &mut area);
    show(out, b"a://b", b"/..//c", &mut area);
    show(out, b"a:b", b"//c", &mut area);
}

// One byte more than base and reference together is enough, and one less is not.
fn rooms(out: Stdout) {
    let mut enough = [0u8; 8];
    show(out, b"a://b", b"cd", &mut enough);
    let mut short = [0u8; 7];
    show(out, b"a://b", b"cd", &mut short);
}

// 1,024 bytes, one more, and a longer reference whose dot segments cancel.
fn lengths(out: Stdout) {
    let mut area = [0u8; 4096];
    let most = [b'a'; 1021];
    count(out, b"x:/", &most, &mut area);
    let over = [b'a'; 1022];
    count(out, b"x:/", &over, &mut area);
    let mut cancel = [b'a'; 3000];
    cancel[2996] = b'/';
    cancel[2997] = b'.';
    cancel[2998] = b'.';
    cancel[2999] = b'/';
    show(out, b"x:/", &cancel, &mut area);
}

fn show(out: Stdout, base: &[u8], reference: &[u8], area: &mut [u8]) {
    match resolve::resolve(base, reference, area) {
        Ok(resolved) => {
            print(out, &area[..resolved.len]);
        }
        Err(ResolveError::NoForm) => {
            print(out, b"(no form)");
        }
        Err(ResolveError::TooLong) => {
            print(out, b"(too long)");
        }
        Err(ResolveError::NoArea) => {
            print(out, b"(no area)");
        }
    }
    print(out, b"\n");
}

// As `show`, with the number of bytes for the text.
fn count(out: Stdout, base: &[u8], reference: &[u8], area: &mut [u8]) {
    match resolve::resolve(base, reference, area) {
        Ok(resolved) => {
            let n = resolved.len;
            let _ = print!(out; "{n}");
        }
        Err(ResolveError::NoForm) => {
            print(out, b"(no form)");
        }
        Err(ResolveError::TooLong) => {
            print(out, b"(too long)");
        }
        Err(ResolveError::NoArea) => {
            print(out, b"(no area)");
        }
    }
    print(out, b"\n");
}

// An output that takes no more loses what is printed, and the program goes on.
fn print(out: Stdout, s: &[u8]) {
    let _ = out.write_all(s);
}
