// A writer in two passes: each function counts what it writes, and stores it only where `on`, as far as there is room.
// So one code measures and stores. A count that reaches `MOST` stays there.
#![tactic(auto)]

ghost use Rattle.std.specs.Prelude.{◌≡◌, [], ◌∷◌};
ghost use Rattle.writer.specs.Put.{counted, Put};

pub mod coded;
pub mod content;
pub mod iriref;
pub mod quoted;
pub mod value;

// The bytes of a draft: most texts have room there, and one that has is counted and written in one pass.
pub const DRAFT: usize = 1024;

// The largest count.
pub const MOST: usize = 18_446_744_073_709_551_615;

// The count `n` bytes behind `at`.
pub fn counted(at: usize, n: usize) -> usize
    ensures { result ≡ counted at n }
{
    at.saturating_add(n)
}

// The bytes of `src`.
pub fn bytes(out: &mut [u8], at: usize, on: bool, src: &[u8]) -> usize
    ensures { Put on out.old out.new at result src.now }
{
    if !on {
        return counted(at, src.len());
    }
    if out.len() <= at {
        return counted(at, src.len());
    }
    let room = out.len() - at;
    if src.len() <= room {
        copy::put(out, at, src);
        return at + src.len();
    }
    copy::put(out, at, &src[..room]);
    counted(at, src.len())
}

// One byte.
pub fn byte(out: &mut [u8], at: usize, on: bool, b: u8) -> usize
    ensures { Put on out.old out.new at result (b ∷ []) }
{
    if !on {
        return counted(at, 1);
    }
    if out.len() <= at {
        return counted(at, 1);
    }
    out[at] = b;
    at + 1
}
