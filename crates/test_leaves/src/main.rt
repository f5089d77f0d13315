// The verdict on each line of the files `iris` and `tags`.
#![tactic(auto)]

use spec::Verdict;
use std::fs::File;
use std::io::Stdout;
use std::rt::Files;

fn main(rt: HostRuntime) {
    report_file(&rt, rt.stdout(), "iris");
    report_file(&rt, rt.stdout(), "tags");
}

fn report_file<R: Files + Eprint>(rt: &R, out: Stdout, path: &str) {
    let mut file = match File::open(rt, path) {
        Ok(file) => file,
        Err(why) => {
            let _ = eprintln!(rt; "{path}: {why}");
            return;
        }
    };
    let mut text = [0u8; 65536];
    let n = streams::read_full(&mut file, &mut text);
    report_lines(out, &text[..n]);
}

fn report_lines(out: Stdout, text: &[u8]) {
    for line in text.split_inclusive(|b| *b == b'\n') {
        report(out, line.strip_suffix(b"\n").unwrap_or(line));
    }
}

fn report(out: Stdout, line: &[u8]) {
    match verdict_on(line) {
        Verdict::Good => print(out, b"good\t"),
        Verdict::Clears => print(out, b"clears\t"),
        Verdict::Bad => print(out, b"bad\t"),
    };
    print(out, line);
    print(out, b"\n");
}

// Before an IRI or a reference to one stand its kind and a tab, before a language tag nothing.
fn verdict_on(line: &[u8]) -> Verdict {
    if let Some(iri) = line.strip_prefix(b"iri\t") {
        return told(iri::is_iri(iri));
    }
    if let Some(reference) = line.strip_prefix(b"ref\t") {
        return told(iri::is_iri_reference(reference));
    }
    langtag::parse(line)
}

fn told(good: bool) -> Verdict {
    if good { Verdict::Good } else { Verdict::Bad }
}

// An output that takes no more loses what is printed, and the program goes on.
fn print(out: Stdout, s: &[u8]) {
    let _ = out.write_all(s);
}
