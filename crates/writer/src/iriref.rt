// An IRI between its brackets: bytes that must not stand there become \u and four hex digits.
ghost use Rattle.std.specs.Prelude.{◌≡◌, ◌<◌};
ghost use Rattle.spec.specs.NTriples.{coded, iri_byte, forbidden, hex_digit};
ghost use Rattle.writer.specs.Put.{Put};

use crate::coded::{self, Coding, Word};

// The most bytes that a byte is written as.
pub const MOST: usize = 6;

pub fn write(out: &mut [u8], at: usize, on: bool, s: &[u8]) -> usize
    ensures { Put on out.old out.new at result (coded iri_byte s.now) }
{
    if s.len() == 0 {
        return at;
    }
    coded::write::<Iri>(out, at, on, s)
}

// In an IRI.
#[derive(Clone, Copy, Debug, PartialEq, Eq)]
pub struct Iri;

impl Coding for Iri {
    ghost byte_of = { iri_byte };

    // Coarser than `is_forbidden`, some tests less: the mask is that of <, >, \, ^ and |.
    fn is_marked(b: u8) -> bool {
        ((b & 0x9D) == 0x1C) | (b == b'`') | (b <= b'"') | ((b'{' <= b) & (b <= 127))
    }

    fn spell(b: u8) -> Word {
        if !is_forbidden(b) {
            return Word {
                bytes: [b; 8],
                len: 1,
            };
        }
        let bytes = [b'\\', b'u', b'0', b'0', hex(b / 16), hex(b % 16), 0, 0];
        Word { bytes, len: 6 }
    }
}

// 00 to 20 hex and nine marks.
fn is_forbidden(b: u8) -> bool
    ensures { result ≡ forbidden b }
{
    if b <= 32 {
        return true;
    }
    match b {
        b'<' | b'>' | b'"' | b'{' | b'}' | b'|' | b'^' | b'`' | b'\\' => true,
        _ => false,
    }
}

fn hex(n: u8) -> u8
    requires { n < 16 }
    ensures { result ≡ hex_digit n }
{
    if n < 10 {
        return b'0' + n;
    }
    b'A' - 10 + n
}
