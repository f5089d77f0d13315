// The first event of the input, over what is lent: the heart of a step, which knows nothing of how a state is packed.
ghost use Rattle.std.specs.Prelude.{◌≡◌};
ghost use Rattle.event.specs.Progress.{lent};
ghost use Rattle.reader.specs.Asked.{Asks, Roomy, Areas};
ghost use Rattle.reader.specs.Core.{Takes, taken_as};

use event::Advance;
use pyx::{Event, FirstError};
use spec::Refusal;
use start_names::Class;
use start_references::reference::Area;
use state::Registers;
use state_ids::IdTable;

// The first event of the input, done: how many bytes it has, and what is behind it.
#[derive(Clone, Copy)]
pub struct Taken {
    pub consumed: usize,
    pub behind: Advance,
}

impl Taken {
    // What `core` works in: an event's texts, four words for each of its attributes, and bytes to resolve in.
    pub const SCRATCH: usize = Event::MOST_BYTES;

    pub const SPANS: usize = Class::MOST * 4;

    pub const AREA: usize = Area::BYTES;
}

// The first event of the input, in an open document. Where it is refused, nothing lent has changed. The last four are scratch.
pub fn core(
    registers: Registers,
    count: usize,
    used: usize,
    frames: &mut [u32],
    bindings: &mut [u32],
    inners: &mut [u32],
    work: &mut [u8],
    places: &mut [u32; IdTable::MOST],
    sizes: &mut [u32; IdTable::MOST],
    ids: &mut [u8],
    input: &[u8],
    last: bool,
    out: &mut [u8],
    scratch: &mut [u8],
    spans: &mut [u32],
    area: &mut [u8],
    classes: &mut [usize; Class::TABLE],
) -> Result<Taken, Refusal>
    requires { Asks registers count used (lent frames.old bindings.old inners.old work.old places.old sizes.old ids.old out.old) × Roomy scratch.old spans.old area.old }
    ensures { Takes last input.now registers count result
        (lent frames.old bindings.old inners.old work.old places.old sizes.old ids.old out.old)
        (lent frames.new bindings.new inners.new work.new places.new sizes.new ids.new out.new)
        × Areas scratch.old spans.old area.old scratch.new spans.new area.new }
{
    match pyx::first_event(input, last) {
        Err(FirstError::Wait) => Err(Refusal::Incomplete),
        Err(FirstError::Unended) => Err(Refusal::NotPyx),
        Err(FirstError::TooLong) => Err(Refusal::OverLimit),
        Ok(n) => {
            let progress = crate::parser::parse_event(
                registers,
                count,
                used,
                frames,
                bindings,
                inners,
                work,
                places,
                sizes,
                ids,
                &input[..n],
                out,
                scratch,
                spans,
                area,
                classes,
            );
            took(n, progress)
        }
    }
}

// What an event of `n` bytes has done.
fn took(n: usize, progress: Result<Advance, Refusal>) -> Result<Taken, Refusal>
    ensures { result ≡ taken_as n progress }
{
    let behind = progress?;
    Ok(Taken {
        consumed: n,
        behind,
    })
}
