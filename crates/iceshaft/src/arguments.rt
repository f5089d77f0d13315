// The arguments: switches, and behind them files.
ghost use Rattle.std.specs.Prelude.{◌≡◌};
ghost use Rattle.iceshaft.specs.Arguments.{unsaid, with_pyx, with_xmp, chosen_mode, awaiting, with_base, with_file, looked};

use spec::Mode;

// What the arguments say so far: that the input is PYX, and that it is XMP packets; which of them is the base and which the
// first file, where there is one; and whether the next one is to be the base.
#[derive(Clone, Copy, Debug, PartialEq, Eq)]
pub struct Chosen {
    pub pyx: bool,
    pub xmp: bool,
    pub base: Option<usize>,
    pub file: Option<usize>,
    pub waits: bool,
}

impl Chosen {
    // The most bytes of an argument.
    pub const MOST: usize = 4_096;

    pub fn none() -> Self
        ensures { result ≡ unsaid }
    {
        Chosen {
            pyx: false,
            xmp: false,
            base: None,
            file: None,
            waits: false,
        }
    }

    // What is said behind argument `i`, unless it is wrong where it stands. Switches stand before the files.
    pub fn look(self, i: usize, word: &[u8]) -> Option<Self>
        ensures { result ≡ looked self i word.now }
    {
        if self.waits {
            return Some(self.with_base(i));
        }
        if !copy::begins(word, b"-") {
            return Some(self.with_file(i));
        }
        if self.file.is_some() {
            return None;
        }
        if copy::equal(word, b"--pyx") {
            return Some(self.with_pyx());
        }
        if copy::equal(word, b"--xmp") {
            return Some(self.with_xmp());
        }
        if copy::equal(word, b"--base") {
            return self.awaiting();
        }
        None
    }

    fn with_pyx(mut self) -> Self
        ensures { result ≡ with_pyx self }
    {
        self.pyx = true;
        self
    }

    fn with_xmp(mut self) -> Self
        ensures { result ≡ with_xmp self }
    {
        self.xmp = true;
        self
    }

    // The mode of every document.
    pub fn mode(self) -> Mode
        ensures { result ≡ chosen_mode self }
    {
        if self.xmp { Mode::xmp() } else { Mode::base() }
    }

    // A base is said once.
    fn awaiting(mut self) -> Option<Self>
        ensures { result ≡ awaiting self }
    {
        if self.base.is_some() {
            return None;
        }
        self.waits = true;
        Some(self)
    }

    fn with_base(mut self, i: usize) -> Self
        ensures { result ≡ with_base self i }
    {
        self.base = Some(i);
        self.waits = false;
        self
    }

    // The files go on from the first to the last argument.
    fn with_file(mut self, i: usize) -> Self
        ensures { result ≡ with_file self i }
    {
        self.file = self.file.or(Some(i));
        self
    }
}
