// A byte or a word as a number.
ghost use Rattle.std.specs.Prelude.{◌≡◌, ◌<◌};

// A byte as a number.
pub fn byte(x: u8) -> usize
    ensures { (result ≡ x) × (result < 256) }
{
    x as usize
}

// A word as a number.
pub fn wide(x: u32) -> usize
    ensures { (result ≡ x) × (result < 4294967296) }
{
    x as usize
}
