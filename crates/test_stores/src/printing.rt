// Lines for standard output.
use label::Decimal;
use std::io::Stdout;

pub fn answer(out: Stdout, what: &[u8], answer: bool) {
    text(out, what);
    if answer {
        text(out, b": yes\n");
    } else {
        text(out, b": no\n");
    }
}

pub fn number(out: Stdout, what: &[u8], n: usize) {
    let decimal = Decimal::of(n as u64);
    let digits = decimal.digits;
    let from = decimal.from;
    text(out, what);
    text(out, b": ");
    text(out, &digits[from..]);
    text(out, b"\n");
}

// An output that takes no more loses what is printed, and the program goes on.
pub fn text(out: Stdout, s: &[u8]) {
    let _ = out.write_all(s);
}
