// Events one after another, over what is lent: the heart of a program that reads its input in pieces.
ghost use Rattle.event.specs.Progress.{lent};
ghost use Rattle.reader.specs.Asked.{Asks, Roomy, Areas};
ghost use Rattle.reader.specs.Goes.{Goes};

use reader_contract::fed::Fed;
use start_names::Class;
use state::Registers;
use state_ids::IdTable;

// Events from the front of the input, in an open document, as long as the output has room for one more. The last three are scratch.
pub fn feed(
    registers: Registers,
    count: usize,
    used: usize,
    frames: &mut [u32],
    bindings: &mut [u32],
    inners: &mut [u32],
    work: &mut [u8],
    places: &mut [u32; IdTable::MOST],
    sizes: &mut [u32; IdTable::MOST],
    ids: &mut [u8],
    input: &[u8],
    last: bool,
    out: &mut [u8],
    scratch: &mut [u8],
    spans: &mut [u32],
    area: &mut [u8],
) -> Fed
    requires { Asks registers count used (lent frames.old bindings.old inners.old work.old places.old sizes.old ids.old out.old) × Roomy scratch.old spans.old area.old }
    ensures { Goes last input.now registers count result
        (lent frames.old bindings.old inners.old work.old places.old sizes.old ids.old out.old)
        (lent frames.new bindings.new inners.new work.new places.new sizes.new ids.new out.new)
        × Areas scratch.old spans.old area.old scratch.new spans.new area.new }
{
    let mut classes = [0usize; Class::TABLE];
    let mut fed = Fed::none(registers, count, used);
    // An event takes as much of the input and the output as it needs, so no range counts the turns.
    while Fed::ROOM <= out.len() - fed.written {
        let registers = fed.registers;
        let from = fed.consumed;
        let at = fed.written;
        let end = at + Fed::ROOM;
        let taken = crate::stream::core(
            registers,
            fed.count,
            fed.used,
            frames,
            bindings,
            inners,
            work,
            places,
            sizes,
            ids,
            &input[from..],
            last,
            &mut out[at..end],
            scratch,
            spans,
            area,
            &mut classes,
        );
        match taken {
            Err(why) => return fed.stopped(why),
            Ok(t) => fed = fed.further(t.consumed, t.behind),
        }
    }
    fed
}
