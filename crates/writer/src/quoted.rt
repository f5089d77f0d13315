// The text of a literal: `"`, `\`, LF and CR are escaped by a backslash.
ghost use Rattle.spec.specs.NTriples.{coded, literal_byte};
ghost use Rattle.writer.specs.Put.{Put};

use crate::coded::{self, Coding, Word};

// The most bytes that a byte is written as.
pub const MOST: usize = 2;

pub fn write(out: &mut [u8], at: usize, on: bool, s: &[u8]) -> usize
    ensures { Put on out.old out.new at result (coded literal_byte s.now) }
{
    if s.len() == 0 {
        return at;
    }
    coded::write::<Quoted>(out, at, on, s)
}

// In a literal.
#[derive(Clone, Copy, Debug, PartialEq, Eq)]
pub struct Quoted;

impl Coding for Quoted {
    ghost byte_of = { literal_byte };

    // Coarser than `spell`, a test less.
    fn is_marked(b: u8) -> bool {
        (b <= b'\r') | (b == b'"') | (b == b'\\')
    }

    fn spell(b: u8) -> Word {
        match b {
            b'"' => Word {
                bytes: *b"\\\"      ",
                len: 2,
            },
            b'\\' => Word {
                bytes: *b"\\\\      ",
                len: 2,
            },
            b'\n' => Word {
                bytes: *b"\\n      ",
                len: 2,
            },
            b'\r' => Word {
                bytes: *b"\\r      ",
                len: 2,
            },
            _ => Word {
                bytes: [b; 8],
                len: 1,
            },
        }
    }
}
