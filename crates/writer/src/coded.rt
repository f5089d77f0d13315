// A text byte by byte, by a coding: most bytes are written as they are, some as a word.
ghost use Rattle.std.specs.Prelude.{ℕ, ◌≡◌, false, [], ◌∷◌, ◌<◌, ◌≤◌, length};
ghost use Rattle.spec.specs.Bytes.{Bytes};
ghost use Rattle.spec.specs.NTriples.{coded};
ghost use Rattle.writer.specs.Put.{Put};
ghost use Rattle.writer.specs.Rules.{Spells};
ghost use Rattle.writer.specs.Coded.{Plain, Clean};

// How the bytes of a text are written: in an IRI, in a literal, in XML text, in the value of an XML attribute.
pub trait Coding {
    ghost byte_of: { ℕ → Bytes };

    // Each byte that is not written as it is, and few others.
    fn is_marked(b: u8) -> bool
        ensures { result ≡ false → byte_of b ≡ b ∷ [] };

    fn spell(b: u8) -> Word
        ensures { Spells result (byte_of b) };
}

// What a byte is written as: the first `len` of these. No word has more than six; eight are copied at once.
// An array with its length, since a borrowed text could not hold the byte itself, and there is no heap.
#[derive(Clone, Copy)]
pub struct Word {
    pub bytes: [u8; 8],
    pub len: usize,
}

// The bytes that are tested at once.
const BLOCK: usize = 16;

// A run of bytes that are written as they are, a row of marked ones, and so on. A turn passes what was found, so no `for` fits.
pub fn write<C: Coding>(out: &mut [u8], at: usize, on: bool, s: &[u8]) -> usize
    ensures { Put on out.old out.new at result (coded C.byte_of s.now) }
{
    let mut i = run::<C>(s);
    let mut to = crate::bytes(out, at, on, &s[..i]);
    while i < s.len() {
        let next = i + row::<C>(&s[i..]);
        to = escape_row::<C>(out, to, on, &s[i..next]);
        i = next + run::<C>(&s[next..]);
        to = crate::bytes(out, to, on, &s[next..i]);
    }
    to
}

// How many bytes there are up to a marked one: these are written as they are.
fn run<C: Coding>(s: &[u8]) -> usize
    ensures { Plain C.byte_of s.now result }
{
    for i in skip_blocks::<C>(s)..s.len() {
        if C::is_marked(s[i]) {
            return i;
        }
    }
    s.len()
}

// The same in blocks, up to one with a marked byte. The last block may begin among the bytes tested before it,
// so no `for` over blocks fits.
fn skip_blocks<C: Coding>(s: &[u8]) -> usize
    ensures { Plain C.byte_of s.now result }
{
    if s.len() < BLOCK {
        return 0;
    }
    let last = s.len() - BLOCK;
    let mut from = 0;
    while !has_marked::<C>(s, from, from + BLOCK) {
        if from == last {
            return s.len();
        }
        from = last.min(from + BLOCK);
    }
    from
}

// Is one marked? The loop has no branch, so that a block is tested at once.
fn has_marked<C: Coding>(s: &[u8], from: usize, to: usize) -> bool
    requires { to ≤ length s.now }
    ensures { Clean C.byte_of s.now from to result }
{
    let mut marked = false;
    for i in from..to {
        marked = marked | C::is_marked(s[i]);
    }
    marked
}

// How many bytes are marked in a row, from a first one that is.
fn row<C: Coding>(s: &[u8]) -> usize
    requires { 0 < length s.now }
    ensures { (0 < result) × (result ≤ length s.now) }
{
    for i in 1..s.len() {
        if !C::is_marked(s[i]) {
            return i;
        }
    }
    s.len()
}

// Each byte as its word.
fn escape_row<C: Coding>(out: &mut [u8], at: usize, on: bool, s: &[u8]) -> usize
    ensures { Put on out.old out.new at result (coded C.byte_of s.now) }
{
    let mut to = at;
    for b in s {
        to = escape::<C>(out, to, on, *b);
    }
    to
}

// One byte.
fn escape<C: Coding>(out: &mut [u8], at: usize, on: bool, b: u8) -> usize
    ensures { Put on out.old out.new at result (C.byte_of b) }
{
    let word = C::spell(b);
    let text = word.bytes;
    let n = word.len;
    crate::bytes(out, at, on, &text[..n])
}
