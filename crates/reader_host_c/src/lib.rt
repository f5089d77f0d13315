// The calls of crate `reader_host` under their names in C, with the same clauses: host/iceshaft.h declares them.
#![tactic(auto)]

ghost use Rattle.std.specs.Prelude.{◌≡◌};
ghost use Rattle.reader_host.specs.Image.{state_bytes};
ghost use Rattle.reader_host.specs.Meets.{yes, StartsIn, StepsIn, FinishesIn};

// Bytes of the state's buffer.
#[unsafe(no_mangle)]
pub extern "C" fn iceshaft_state_bytes() -> usize
    ensures { result ≡ state_bytes }
{
    reader_host::iceshaft_state_bytes()
}

// A document begins in the mode of this number, with a start base where `based` is not 0.
#[unsafe(no_mangle)]
pub extern "C" fn iceshaft_start(
    state: &mut [u8],
    work: &mut [u8],
    ids: &[u8],
    mode: u32,
    based: u32,
    base: &[u8],
) -> u8
    ensures { StartsIn mode (yes based) base.now state.old work.old ids.now result state.new work.new }
{
    reader_host::iceshaft_start(state, work, ids, mode, based, base)
}

// The first event of the input; no more follows where `last` is not 0.
#[unsafe(no_mangle)]
pub extern "C" fn iceshaft_step(
    state: &mut [u8],
    work: &mut [u8],
    ids: &mut [u8],
    input: &[u8],
    last: u32,
    out: &mut [u8],
    consumed: &mut usize,
    written: &mut usize,
) -> u8
    ensures { StepsIn (yes last) input.now state.old work.old ids.old out.old result consumed.new written.new state.new work.new ids.new out.new }
{
    reader_host::iceshaft_step(state, work, ids, input, last, out, consumed, written)
}

// The document is over.
#[unsafe(no_mangle)]
pub extern "C" fn iceshaft_finish(state: &mut [u8], work: &[u8], ids: &[u8]) -> u8
    ensures { FinishesIn state.old work.now ids.now result state.new }
{
    reader_host::iceshaft_finish(state, work, ids)
}
