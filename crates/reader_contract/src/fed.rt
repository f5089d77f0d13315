// How far a row of events came, for a caller that does many at a time.
ghost use Rattle.std.specs.Prelude.{◌≡◌};
ghost use Rattle.reader_contract.specs.Fed.{nothing, further, Sums, stopped};

use event::Advance;
use spec::Refusal;
use state::Registers;

// How far the events went: what is behind them, how many they were, the bytes that they took and wrote, and why no further one
// was done: it is refused, or, where there is no refusal, the output is too full to give it its room.
#[derive(Clone, Copy)]
pub struct Fed {
    pub registers: Registers,
    pub count: usize,
    pub used: usize,
    pub events: usize,
    pub consumed: usize,
    pub written: usize,
    pub refusal: Option<Refusal>,
}

impl Fed {
    // The output room that an event is given.
    pub const ROOM: usize = 65_536;

    // No event yet.
    pub fn none(registers: Registers, count: usize, used: usize) -> Self
        ensures { result ≡ nothing registers count used }
    {
        Fed {
            registers,
            count,
            used,
            events: 0,
            consumed: 0,
            written: 0,
            refusal: None,
        }
    }

    // One event more, of `n` bytes.
    pub fn further(self, n: usize, a: Advance) -> Self
        requires { Sums self n a }
        ensures { result ≡ further self n a }
    {
        Fed {
            registers: a.registers,
            count: a.count,
            used: a.used,
            events: self.events + 1,
            consumed: self.consumed + n,
            written: self.written + a.written,
            refusal: None,
        }
    }

    // The next event is refused.
    pub fn stopped(self, why: Refusal) -> Self
        ensures { result ≡ stopped self why }
    {
        Fed {
            refusal: Some(why),
            ..self
        }
    }
}
