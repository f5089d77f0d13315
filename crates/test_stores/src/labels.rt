// Labels, decimals and the tests of labels at their bounds, printed.
use crate::printing::text;
use label::{BlankNodeIdGenerator, Decimal};
use std::io::Stdout;

pub fn try_all(out: Stdout) {
    labels(out);
    decimals(out);
    answers(out);
}

fn write_line(out: Stdout, s: &[u8]) {
    text(out, s);
    text(out, b"\n");
}

// The next label, or that there is none.
fn write_label(out: Stdout, mut generator: BlankNodeIdGenerator) {
    match generator.generate() {
        Some(label) => write_line(out, &label.id),
        None => write_line(out, b"spent"),
    }
}

fn write_decimal(out: Stdout, v: u64) {
    let decimal = Decimal::of(v);
    let digits = decimal.digits;
    let from = decimal.from;
    write_line(out, &digits[from..]);
}

fn write_answer(out: Stdout, answer: bool) {
    if answer {
        write_line(out, b"yes");
    } else {
        write_line(out, b"no");
    }
}

fn labels(out: Stdout) {
    let mut generator = BlankNodeIdGenerator::new();
    write_label(out, generator);
    let _ = generator.generate();
    write_label(out, generator);
    write_label(out, BlankNodeIdGenerator { counter: 99 });
    write_label(
        out,
        BlankNodeIdGenerator {
            counter: BlankNodeIdGenerator::MOST_LABELS - 1,
        },
    );
    write_label(
        out,
        BlankNodeIdGenerator {
            counter: BlankNodeIdGenerator::MOST_LABELS,
        },
    );
    write_label(
        out,
        BlankNodeIdGenerator {
            counter: 18_446_744_073_709_551_615,
        },
    );
}

fn decimals(out: Stdout) {
    write_decimal(out, 0);
    write_decimal(out, 1);
    write_decimal(out, 9);
    write_decimal(out, 10);
    write_decimal(out, 99_999_999);
    write_decimal(out, 18_446_744_073_709_551_615);
}

fn answers(out: Stdout) {
    write_answer(out, label::is_generated(b"riog00000001"));
    write_answer(out, label::is_generated(b"riog0000001"));
    write_answer(out, label::is_generated(b"riog000000011"));
    write_answer(out, label::is_generated(b"riog0000000:"));
    write_answer(out, label::is_generated(b"riog/0000000"));
    write_answer(out, label::is_generated(b"rioG00000001"));
    write_answer(out, label::ends_in_stop(b""));
    write_answer(out, label::ends_in_stop(b"."));
    write_answer(out, label::ends_in_stop(b".a"));
}
