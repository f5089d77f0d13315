// The three calls for a host in C, on numbers and byte buffers: those of crate `reader`, with the state in a lent buffer. The rules of use
// are in host/iceshaft.h. Crate `reader_host_c` exports them. Flags, modes and refusals are numbers here, counts go out by references and
// parameters stand one by one: that is the C interface.
#![tactic(auto)]

ghost use Rattle.std.specs.Prelude.{◌≡◌};
ghost use Rattle.reader_host.specs.Image.{state_bytes};
ghost use Rattle.reader_host.specs.Meets.{yes, StartsIn, StepsIn, FinishesIn};

pub mod image;
mod little;

use reader_contract::State;
use spec::Refusal;

// Bytes of the state's buffer.
pub fn iceshaft_state_bytes() -> usize
    ensures { result ≡ state_bytes }
{
    image::BYTES
}

// A document begins in the mode of this number, with a start base where `based` is not 0.
pub fn iceshaft_start(
    state: &mut [u8],
    work: &mut [u8],
    ids: &[u8],
    mode: u32,
    based: u32,
    base: &[u8],
) -> u8
    ensures { StartsIn mode (yes based) base.now state.old work.old ids.now result state.new work.new }
{
    if state.len() != image::BYTES {
        return u8::from(Refusal::BadState);
    }
    let Some(chosen) = image::mode_of(mode as usize) else {
        return u8::from(Refusal::BadState);
    };
    let before = State::none();
    let lent = (based != 0).then_some(base);
    let report = reader::start(before, chosen, lent, work, ids);
    let number = report.number();
    let refused = number != 0;
    if refused {
        return number;
    }
    image::save(state, report.state);
    number
}

// The first event of the input; no more follows where `last` is not 0.
pub fn iceshaft_step(
    state: &mut [u8],
    work: &mut [u8],
    ids: &mut [u8],
    input: &[u8],
    last: u32,
    out: &mut [u8],
    consumed: &mut usize,
    written: &mut usize,
) -> u8
    ensures { StepsIn (yes last) input.now state.old work.old ids.old out.old result consumed.new written.new state.new work.new ids.new out.new }
{
    *consumed = 0;
    *written = 0;
    let Some(before) = image::load(state) else {
        return u8::from(Refusal::BadState);
    };
    let report = reader::step(before, work, ids, input, last != 0, out);
    *consumed = report.consumed;
    *written = report.written;
    image::save(state, report.state);
    report.number()
}

// The document is over.
pub fn iceshaft_finish(state: &mut [u8], work: &[u8], ids: &[u8]) -> u8
    ensures { FinishesIn state.old work.now ids.now result state.new }
{
    let Some(before) = image::load(state) else {
        return u8::from(Refusal::BadState);
    };
    let report = reader::finish(before, work, ids);
    image::save(state, report.state);
    report.number()
}
