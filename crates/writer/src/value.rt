// The value of an XML attribute, as Canonical XML writes it.
ghost use Rattle.spec.specs.NTriples.{coded};
ghost use Rattle.spec.specs.XmlLiteral.{value_byte};
ghost use Rattle.writer.specs.Put.{Put};

use crate::coded::{self, Coding, Word};

pub fn write(out: &mut [u8], at: usize, on: bool, s: &[u8]) -> usize
    ensures { Put on out.old out.new at result (coded value_byte s.now) }
{
    coded::write::<Value>(out, at, on, s)
}

// In the value of an XML attribute.
#[derive(Clone, Copy, Debug, PartialEq, Eq)]
pub struct Value;

impl Coding for Value {
    ghost byte_of = { value_byte };

    // Coarser than `spell`, two tests less.
    fn is_marked(b: u8) -> bool {
        (b <= b'\r') | (b == b'"') | (b == b'&') | (b == b'<')
    }

    fn spell(b: u8) -> Word {
        match b {
            b'&' => Word {
                bytes: *b"&amp;   ",
                len: 5,
            },
            b'<' => Word {
                bytes: *b"&lt;    ",
                len: 4,
            },
            b'"' => Word {
                bytes: *b"&quot;  ",
                len: 6,
            },
            b'\t' => Word {
                bytes: *b"&#x9;   ",
                len: 5,
            },
            b'\n' => Word {
                bytes: *b"&#xA;   ",
                len: 5,
            },
            b'\r' => Word {
                bytes: *b"&#xD;   ",
                len: 5,
            },
            _ => Word {
                bytes: [b; 8],
                len: 1,
            },
        }
    }
}
