// Text events.
#![tactic(auto)]

ghost use Rattle.std.specs.Prelude.{◌≡◌, ◌≤◌, leb, length};
ghost use Rattle.spec.specs.Limits.{most_held_bytes};
ghost use Rattle.spec.specs.Pyx.{text};
ghost use Rattle.state_inner.specs.Calls.{held_in};
ghost use Rattle.event.specs.Result.{Asks};
ghost use Rattle.literal.specs.Quiet.{Quietly};
ghost use Rattle.text.specs.Blank.{Unchanged, BlankOnly};
ghost use Rattle.text.specs.Object.{TakesText, text_to};

use copy::words::wide;
use event::{Done, Place};
use spec::Refusal;
use state::Registers;
use state_words::Frame;

// By what it stands in.
pub fn parse_text_event(
    r: Registers,
    frames: &mut [u32],
    bindings: &[u32],
    inners: &[u32],
    work: &mut [u8],
    area: &mut [u8],
    s: &[u8],
) -> Result<Done, Refusal>
    requires { Asks r frames.old bindings.now inners.now work.old × (most_held_bytes ≤ length area.old) }
    ensures { Quietly (text s.now) r result frames.old bindings.now inners.now work.old frames.new bindings.now inners.now work.new }
{
    let place = event::place_at(r, frames);
    match place {
        Place::Outside => blank_only(r, s),
        Place::Nodes => blank_only(r, s),
        Place::Properties => blank_only(r, s),
        Place::NodesOrText => take_text(r, frames, work, s),
        Place::Xml => literal::text_inside(r, frames, bindings, inners, work, area, s),
    }
}

// An event that changes nothing: what is held already may be too much.
pub fn unchanged(r: Registers) -> Result<Done, Refusal>
    ensures { Unchanged r result }
{
    if !state_inner::holds_no_more(r) {
        return Err(Refusal::OverLimit);
    }
    Ok(Done {
        written: 0,
        registers: r,
    })
}

// Text where only blank text may stand.
fn blank_only(r: Registers, s: &[u8]) -> Result<Done, Refusal>
    ensures { BlankOnly r s.now result }
{
    if !utils::is_blank(s) {
        return Err(Refusal::StrayText);
    }
    unchanged(r)
}

// Text in a default property, in place of the object so far unless it is blank.
fn take_text(r: Registers, frames: &mut [u32], work: &mut [u8], s: &[u8]) -> Result<Done, Refusal>
    ensures { TakesText r frames.old work.old s.now result frames.new work.new }
{
    if utils::is_blank(s) {
        return unchanged(r);
    }
    if !text_fits(r, frames, s.len()) {
        return Err(Refusal::OverLimit);
    }
    let behind = state_stack::set_text(r, frames, work, s).unwrap_or(r);
    Ok(Done {
        written: 0,
        registers: behind,
    })
}

// May a text of n bytes be held in place of the object on top?
fn text_fits(r: Registers, frames: &[u32], n: usize) -> bool
    ensures { result ≡ leb (held_in (text_to r frames.now n)) most_held_bytes }
{
    if n > Registers::STORE {
        return false;
    }
    let f = state_stack::top(r, frames);
    let at = f.at;
    state_inner::holds_no_more(state_stack::with_top(r, wide(at[Frame::TAIL]) + n))
}
