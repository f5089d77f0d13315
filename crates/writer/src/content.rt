// XML text: &, <, >, the quote and the apostrophe are entities.
ghost use Rattle.spec.specs.NTriples.{coded};
ghost use Rattle.spec.specs.XmlLiteral.{text_byte};
ghost use Rattle.writer.specs.Put.{Put};

use crate::coded::{self, Coding, Word};

pub fn write(out: &mut [u8], at: usize, on: bool, s: &[u8]) -> usize
    ensures { Put on out.old out.new at result (coded text_byte s.now) }
{
    coded::write::<Content>(out, at, on, s)
}

// In XML text.
#[derive(Clone, Copy, Debug, PartialEq, Eq)]
pub struct Content;

impl Coding for Content {
    ghost byte_of = { text_byte };

    // Coarser than `spell`: the mask is that of the quote, & and the apostrophe.
    fn is_marked(b: u8) -> bool {
        ((b & 0xFA) == 0x22) | (b == b'<') | (b == b'>')
    }

    fn spell(b: u8) -> Word {
        match b {
            b'&' => Word {
                bytes: *b"&amp;   ",
                len: 5,
            },
            b'<' => Word {
                bytes: *b"&lt;    ",
                len: 4,
            },
            b'>' => Word {
                bytes: *b"&gt;    ",
                len: 4,
            },
            b'"' => Word {
                bytes: *b"&quot;  ",
                len: 6,
            },
            b'\'' => Word {
                bytes: *b"&apos;  ",
                len: 6,
            },
            _ => Word {
                bytes: [b; 8],
                len: 1,
            },
        }
    }
}
