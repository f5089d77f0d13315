// Generated blank node labels, and numbers in decimal digits: the end of parser.rs.
#![tactic(auto)]

ghost use Rattle.std.specs.Prelude.{◌≡◌, length};
ghost use Rattle.spec.specs.Bytes.{byte, every, between};
ghost use Rattle.spec.specs.NTriples.{digits};
ghost use Rattle.spec.specs.StartTag.{is_generated, ends_in_stop};
ghost use Rattle.label.specs.Label.{Generates};
ghost use Rattle.label.specs.Digits.{Decimals};

// A label: `riog` and eight digits.
#[derive(Clone, Copy, Debug, PartialEq, Eq)]
pub struct BlankNodeId {
    pub id: [u8; 12],
}

// How many labels were generated so far.
#[derive(Clone, Copy, Debug, PartialEq, Eq)]
pub struct BlankNodeIdGenerator {
    pub counter: u64,
}

// A number's twenty decimal digits, and where those without leading zeros begin.
#[derive(Clone, Copy)]
pub struct Decimal {
    pub digits: [u8; 20],
    pub from: usize,
}

impl BlankNodeIdGenerator {
    // The labels of a document, and the rdf:li of a node: eight digits hold no more.
    pub const MOST_LABELS: u64 = 99_999_999;

    // Before any label.
    pub fn new() -> Self
        ensures { result.counter ≡ 0 }
    {
        Self { counter: 0 }
    }

    // The next label. Where none is left the generator stays as it was.
    pub fn generate(&mut self) -> Option<BlankNodeId>
        ensures { Generates self.old.counter self.new.counter result }
    {
        if self.counter >= Self::MOST_LABELS {
            return None;
        }
        self.counter += 1;
        let mut id = *b"riog00000000";
        write_u64_to_slice(self.counter, &mut id[4..]);
        Some(BlankNodeId { id })
    }
}

impl Decimal {
    // A number from 1 on without leading zeros; of 0 no digit is left.
    pub fn of(v: u64) -> Self
        ensures { Decimals v result.digits result.from }
    {
        let mut digits = [b'0'; 20];
        let mut w = v;
        let mut i: usize = 20;
        // As many turns as the number has digits: a `for` over the twenty places would need a way out after the last.
        while 0 < w {
            i -= 1;
            digits[i] = b'0' + (w % 10) as u8;
            w /= 10;
        }
        Decimal { digits, from: i }
    }
}

// The last digits of `v`, as many as there is room for, written from the back.
pub fn write_u64_to_slice(mut v: u64, s: &mut [u8])
    ensures { s.new ≡ digits (length s.old) v }
{
    for i in (0..s.len()).rev() {
        s[i] = b'0' + (v % 10) as u8;
        v /= 10;
    }
}

// Is it a label that could be generated: `riog` and eight digits?
pub fn is_generated(s: &[u8]) -> bool
    ensures { result ≡ is_generated s.now }
{
    if !copy::begins(s, b"riog") {
        return false;
    }
    if s.len() != 12 {
        return false;
    }
    are_digits(&s[4..])
}

// Does it end in a full stop?
pub fn ends_in_stop(s: &[u8]) -> bool
    ensures { result ≡ ends_in_stop s.now }
{
    s.ends_with(b".")
}

// Is every byte a digit?
fn are_digits(s: &[u8]) -> bool
    ensures { result ≡ every (between (byte "0") (byte "9")) s.now }
{
    s.iter().all(|b| b.is_ascii_digit())
}
