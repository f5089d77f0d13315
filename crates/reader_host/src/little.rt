// Numbers as bytes, the low byte first: one number, and numbers end to end.
ghost use Rattle.std.specs.Prelude.{ℕ, ◌≡◌, ◌+◌, ◌*◌, ◌^◌, ◌<◌, ◌≤◌, length, map};
ghost use Rattle.copy.specs.Copy.{part, Wrote};
ghost use Rattle.reader_host.specs.Little.{little, value_of, rows_at};
ghost use Rattle.reader_host.specs.Rows.{WroteRows};

// A number of a state: it stands in the image as `WIDTH` bytes.
pub trait Little: Copy {
    const WIDTH: usize;

    ghost WIDTH: { ℕ };

    ghost value: { Self → ℕ };

    fn write(self, b: &mut [u8], at: usize)
        requires { at + WIDTH ≤ length b.old }
        ensures wrote { Wrote b.old b.new at (at + WIDTH) (little WIDTH (value self)) }
        ensures fits { value self < 256 ^ WIDTH };

    fn read(b: &[u8], at: usize) -> Self
        requires { at + WIDTH ≤ length b.now }
        ensures { value result ≡ value_of (part b.now at WIDTH) };
}

// std has no trait with `to_le_bytes`, and an impl by a macro of one's own is refused: so each width is written out.
impl Little for u32 {
    const WIDTH: usize = 4;

    ghost WIDTH = { 4 };

    ghost value = { λ n. n };

    fn write(self, b: &mut [u8], at: usize) {
        b[at..at + 4].copy_from_slice(&self.to_le_bytes());
    }

    fn read(b: &[u8], at: usize) -> u32 {
        let mut bytes = [0; 4];
        bytes.copy_from_slice(&b[at..at + 4]);
        u32::from_le_bytes(bytes)
    }
}

impl Little for usize {
    const WIDTH: usize = 8;

    ghost WIDTH = { 8 };

    ghost value = { λ n. n };

    fn write(self, b: &mut [u8], at: usize) {
        b[at..at + 8].copy_from_slice(&self.to_le_bytes());
    }

    fn read(b: &[u8], at: usize) -> usize {
        let mut bytes = [0; 8];
        bytes.copy_from_slice(&b[at..at + 8]);
        usize::from_le_bytes(bytes)
    }
}

// Numbers written end to end, from a place on.
pub fn write_row<T: Little>(b: &mut [u8], at: usize, ns: &[T])
    requires { at + length ns.now * T.WIDTH ≤ length b.old }
    ensures { WroteRows T.WIDTH b.old at (map T.value ns.now) b.new }
{
    for i in 0..ns.len() {
        ns[i].write(b, at + i * T::WIDTH);
    }
}

// And back: as many as `ns` has places. By `array::from_fn` it is no plainer: the closure needs a clause of its own.
pub fn read_row<T: Little>(b: &[u8], at: usize, ns: &mut [T])
    requires { at + length ns.old * T.WIDTH ≤ length b.now }
    ensures { map T.value ns.new ≡ rows_at T.WIDTH b.now at (length ns.old) }
{
    for i in 0..ns.len() {
        ns[i] = T::read(b, at + i * T::WIDTH);
    }
}
