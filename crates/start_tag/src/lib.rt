// Start tags outside Literal content: judged rule by rule, and carried out where nothing is wrong.
#![tactic(auto)]

ghost use Rattle.std.specs.Prelude.{◌≡◌, false, [], length, take};
ghost use Rattle.spec.specs.Pyx.{opening};
ghost use Rattle.start_names.specs.Tag.{attributes_of};
ghost use Rattle.event.specs.Progress.{lent, HandlesAll};
ghost use Rattle.start_tag.specs.Starting.{Asks, Roomy, JudgesStart};

mod giving;
mod judging;
mod packets;
pub mod reading;
mod wrapper;

use crate::reading::Read;
use event::Advance;
use spec::Refusal;
use start_names::Class;
use start_plan::Start;
use state::Registers;
use state_ids::IdTable;

// A start tag whose name is the first m bytes of the scratch, with its colon at c, and that has k attributes.
pub fn start_outside(
    r: Registers,
    count: usize,
    used: usize,
    frames: &mut [u32],
    bindings: &mut [u32],
    inners: &[u32],
    work: &mut [u8],
    places: &mut [u32; IdTable::MOST],
    sizes: &mut [u32; IdTable::MOST],
    ids: &mut [u8],
    scratch: &[u8],
    spans: &[u32],
    m: usize,
    c: usize,
    k: usize,
    area: &mut [u8],
    classes: &mut [usize; Class::TABLE],
    out: &mut [u8],
) -> Result<Advance, Refusal>
    requires { Asks r count used (lent frames.old bindings.old inners.now work.old places.old sizes.old ids.old out.old) scratch.now spans.now m c k area.old × (r.flags.closed ≡ false) }
    ensures { HandlesAll (opening (take m scratch.now) (attributes_of scratch.now spans.now k)) r count result (lent frames.old bindings.old inners.now work.old places.old sizes.old ids.old out.old) (lent frames.new bindings.new inners.now work.new places.new sizes.new ids.new out.new) × (length area.new ≡ length area.old) }
{
    let mut roles = [0u8; Class::MOST];
    let start = judge_start(
        r, count, used, frames, bindings, inners, work, places, sizes, ids, scratch, spans, m, c,
        k, classes, &mut roles, area,
    )?;
    start_commit::act(
        start, r, count, used, frames, bindings, inners, work, places, sizes, ids, scratch, spans,
        m, k, area, classes, &roles, out,
    )
}

// 6 and the counts; 8 to 14 as the tag is read; 14, 15, 18 and the limits.
fn judge_start<'a>(
    r: Registers,
    count: usize,
    used: usize,
    frames: &[u32],
    bindings: &[u32],
    inners: &[u32],
    work: &'a [u8],
    places: &[u32; IdTable::MOST],
    sizes: &[u32; IdTable::MOST],
    ids: &[u8],
    scratch: &'a [u8],
    spans: &[u32],
    m: usize,
    c: usize,
    k: usize,
    classes: &mut [usize],
    roles: &mut [u8],
    area: &mut [u8],
) -> Result<Start, Refusal>
    requires { Asks r count used (lent frames.now bindings.now inners.now work.now places.now sizes.now ids.now []) scratch.now spans.now m c k area.old × Roomy classes.old roles.old }
    ensures { JudgesStart result r count used (lent frames.now bindings.now inners.now work.now places.now sizes.now ids.now []) scratch.now spans.now m k classes.old roles.old area.old classes.new roles.new area.new }
{
    start_form::check_form(
        r, frames, bindings, inners, work, scratch, spans, m, c, k, classes,
    )?;
    let read = crate::reading::read_tag(
        r, frames, bindings, work, count, places, sizes, ids, scratch, spans, m, c, k, classes,
        roles, area,
    )?;
    match read {
        Read::Wrapper => crate::wrapper::judge_wrapper(r, scratch, spans, m, k, work, classes),
        Read::Element(t) => judging::judge_tag(
            t, r, count, used, frames, work, scratch, spans, m, k, area,
        ),
    }
}
