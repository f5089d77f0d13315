// Start tags outside Literal content.
#![tactic(auto)]

ghost use Rattle.std.specs.Prelude.{◌≡◌, ◌&&◌, ◌≤◌, eqb, length};
ghost use Rattle.start_form.specs.Form.{Asked, Checks, Faults};

pub mod crowded;
mod marks;
mod own;

use spec::Refusal;
use state::Registers;
use state_words::{Frame, Row};

// Is a start tag well-formed where it stands, and do the counts fit? 6 and the counts (7). `classes` gets what is known of each attribute's name.
pub fn check_form<'a>(
    r: Registers,
    frames: &[u32],
    bindings: &[u32],
    inners: &[u32],
    work: &'a [u8],
    scratch: &'a [u8],
    spans: &[u32],
    m: usize,
    c: usize,
    k: usize,
    classes: &mut [usize],
) -> Result<(), Refusal>
    requires { Asked r frames.now bindings.now inners.now work.now scratch.now spans.now m c k classes.old }
    ensures { Checks result r frames.now bindings.now inners.now work.now scratch.now spans.now m k classes.old classes.new }
{
    if is_second_root(r) {
        return Err(Refusal::NotWellFormed);
    }
    if has_fault(
        scratch,
        spans,
        k,
        work,
        bindings,
        r.counts.bindings,
        classes,
    ) {
        return Err(Refusal::NotWellFormed);
    }
    if r.counts.depth >= Frame::MOST {
        return Err(Refusal::OverLimit);
    }
    let n = start_names::count_declared(scratch, spans, k);
    if r.counts.bindings > Row::MOST_BINDINGS {
        return Err(Refusal::OverLimit);
    }
    if n > Row::MOST_BINDINGS - r.counts.bindings {
        return Err(Refusal::OverLimit);
    }
    Ok(())
}

// Where nothing stands open inside Literal content.
fn is_second_root(r: Registers) -> bool
    ensures { result ≡ (r.flags.rooted && eqb r.counts.depth 0) }
{
    r.flags.rooted & (r.counts.depth == 0)
}

// 6: an illegal binding, or two attributes of one name. `classes` gets what is known of each attribute's name.
// Most tags have no attributes: nothing is walked then.
fn has_fault<'a>(
    scratch: &'a [u8],
    spans: &[u32],
    k: usize,
    work: &'a [u8],
    bindings: &[u32],
    n: usize,
    classes: &mut [usize],
) -> bool
    requires { (k ≤ 64) × (192 ≤ length classes.old) }
    ensures { Faults result scratch.now spans.now k
        work.now bindings.now n classes.old classes.new }
{
    if k == 0 {
        return false;
    }
    if !start_names::all_legal(scratch, spans, k) {
        return true;
    }
    start_names::classify(scratch, spans, k, work, bindings, n, classes);
    if k == 1 {
        return false;
    }
    start_names::repeated_expanded(scratch, spans, k, work, classes)
}
