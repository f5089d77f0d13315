// Events inside Literal content: their XML text is made in a lent area, and then added to the Literal property around.
#![tactic(auto)]

ghost use Rattle.std.specs.Prelude.{◌≡◌, true, ◌+◌, ◌<◌, ◌≤◌, leb, length, take};
ghost use Rattle.spec.specs.Limits.{most_held_bytes};
ghost use Rattle.spec.specs.Pyx.{text, closing, opening};
ghost use Rattle.spec.specs.Namespaces.{declared};
ghost use Rattle.spec.specs.Document.{place_in, xml};
ghost use Rattle.spec.specs.XmlLiteral.{attributes_xml, start_tag_xml};
ghost use Rattle.writer.specs.Put.{Put};
ghost use Rattle.state.specs.Meaning.{elements_of};
ghost use Rattle.state_inner.specs.Calls.{held_in};
ghost use Rattle.start_names.specs.Tag.{attributes_of, Split, Splits};
ghost use Rattle.start_names.specs.Found.{scope};
ghost use Rattle.event.specs.Result.{Asks};
ghost use Rattle.literal.specs.Quiet.{Quietly};
ghost use Rattle.literal.specs.Added.{Adds, kept_of};
ghost use Rattle.literal.specs.Judged.{Tag, Judges, counts, all_known};
ghost use Rattle.literal.specs.Known.{known_prefix, known_at};
ghost use Rattle.literal.specs.Entered.{Ready, Room, Enters};

use event::Done;
use spec::Refusal;
use start_element::Next;
use start_names::{Class, Found};
use state::Registers;
use state_words::{Frame, Kind, Row};

// Text in Literal content.
pub fn text_inside(
    r: Registers,
    frames: &mut [u32],
    bindings: &[u32],
    inners: &[u32],
    work: &mut [u8],
    area: &mut [u8],
    s: &[u8],
) -> Result<Done, Refusal>
    requires { Asks r frames.old bindings.now inners.now work.old × (most_held_bytes ≤ length area.old) × (place_in (elements_of r frames.old bindings.now inners.now work.old) ≡ xml) }
    ensures { Quietly (text s.now) r result frames.old bindings.now inners.now work.old frames.new bindings.now inners.now work.new }
{
    let n = xmltext::text(area, 0, true, s);
    add(r, frames, work, area, n, 0)
}

// An end tag, while an element is open inside Literal content.
pub fn end_inside(
    r: Registers,
    frames: &mut [u32],
    bindings: &[u32],
    inners: &[u32],
    work: &mut [u8],
    area: &mut [u8],
    name: &[u8],
) -> Result<Done, Refusal>
    requires { Asks r frames.old bindings.now inners.now work.old × (most_held_bytes ≤ length area.old) × (0 < r.counts.inner) }
    ensures { Quietly (closing name.now) r result frames.old bindings.now inners.now work.old frames.new bindings.now inners.now work.new }
{
    let behind = state_inner::close_inside(r, inners).unwrap_or(r);
    let own = state_inner::name(r, frames, inners);
    if !copy::equal(name, state::bytes_found(own, work)) {
        return Err(Refusal::NotWellFormed);
    }
    let n = xmltext::end_tag(area, 0, true, name);
    add(behind, frames, work, area, n, 0)
}

// A start tag in Literal content: its name is the first m bytes of the decoded event, with the colon's place plus 1, or 0, in c, and it
// has k attributes.
pub fn start_inside(
    r: Registers,
    frames: &mut [u32],
    bindings: &mut [u32],
    inners: &mut [u32],
    work: &mut [u8],
    scratch: &[u8],
    spans: &[u32],
    m: usize,
    c: usize,
    k: usize,
    area: &mut [u8],
) -> Result<Done, Refusal>
    requires { Asks r frames.old bindings.old inners.old work.old × (most_held_bytes ≤ length area.old) × (place_in (elements_of r frames.old bindings.old inners.old work.old) ≡ xml) × Tag scratch.now spans.now m c k }
    ensures { Quietly (opening (take m scratch.now) (attributes_of scratch.now spans.now k)) r result frames.old bindings.old inners.old work.old frames.new bindings.new inners.new work.new }
{
    let name = copy::piece(scratch, 0, m);
    judge(r, bindings, work, scratch, spans, name, c, k)?;
    copy_element(
        r, frames, bindings, inners, work, scratch, spans, name, k, area,
    )
}

// The XML text that stands in `area` from the front, n bytes as a writer counts, behind what the Literal property around has so far;
// any other property keeps none. `more` bytes are to be held besides.
fn add(
    r: Registers,
    frames: &mut [u32],
    work: &mut [u8],
    area: &[u8],
    n: usize,
    more: usize,
) -> Result<Done, Refusal>
    requires { most_held_bytes ≤ length area.now }
    ensures { Adds r frames.old work.old area.now n more result frames.new work.new }
{
    let size = kept(r, frames, n);
    if !has_room(r, size, more) {
        return Err(Refusal::OverLimit);
    }
    let behind = state_stack::add_xml(r, frames, work, &area[0..size]).unwrap_or(r);
    Ok(Done {
        written: 0,
        registers: behind,
    })
}

// How much of n bytes of XML text is kept.
fn kept(r: Registers, frames: &[u32], n: usize) -> usize
    ensures { result ≡ kept_of r frames.now n }
{
    let f = state_stack::top(r, frames);
    if f.kind == Kind::ParseTypeLiteralPropertyElt {
        n
    } else {
        0
    }
}

// May this much be held besides?
fn has_room(r: Registers, size: usize, more: usize) -> bool
    ensures { result ≡ leb (held_in r + size + more) most_held_bytes }
{
    let held = state_inner::held(r);
    if held > Registers::MOST_HELD {
        return false;
    }
    let left = Registers::MOST_HELD - held;
    if size > left {
        return false;
    }
    more <= left - size
}

// 6, counts (7) and 8 of a start tag, in order; c is its name's colon's place plus 1, or 0.
fn judge(
    r: Registers,
    bindings: &[u32],
    work: &[u8],
    scratch: &[u8],
    spans: &[u32],
    name: &[u8],
    c: usize,
    k: usize,
) -> Result<(), Refusal>
    requires { Split c name.now × Splits scratch.now spans.now k }
    ensures { Judges r bindings.now work.now name.now (attributes_of scratch.now spans.now k) result }
{
    let n = r.counts.bindings;
    if !start_names::all_legal(scratch, spans, k) {
        return Err(Refusal::NotWellFormed);
    }
    if start_names::repeated_written(scratch, spans, k) {
        return Err(Refusal::NotWellFormed);
    }
    if !counts_fit(r, scratch, spans, k) {
        return Err(Refusal::OverLimit);
    }
    let prefix = start_names::front_of(name, c);
    if !known(prefix, scratch, spans, k, work, bindings, n) {
        return Err(Refusal::NoNamespace);
    }
    if !all_known(scratch, spans, k, work, bindings, n) {
        return Err(Refusal::NoNamespace);
    }
    Ok(())
}

// May one more element be open, with k attributes and the bindings that they declare?
fn counts_fit(r: Registers, scratch: &[u8], spans: &[u32], k: usize) -> bool
    ensures { result ≡ counts (r.counts.depth + r.counts.inner) k (length (declared (attributes_of scratch.now spans.now k)) + r.counts.bindings) }
{
    if r.counts.depth >= Frame::MOST {
        return false;
    }
    if r.counts.inner >= Frame::MOST - r.counts.depth {
        return false;
    }
    if k > Class::MOST {
        return false;
    }
    if r.counts.bindings > Row::MOST_BINDINGS {
        return false;
    }
    start_names::count_declared(scratch, spans, k) <= Row::MOST_BINDINGS - r.counts.bindings
}

// Are the prefixes of all attributes known?
fn all_known(
    scratch: &[u8],
    spans: &[u32],
    k: usize,
    work: &[u8],
    bindings: &[u32],
    n: usize,
) -> bool
    requires { Splits scratch.now spans.now k }
    ensures { result ≡ all_known (scope scratch.now spans.now k work.now bindings.now n) (attributes_of scratch.now spans.now k) }
{
    for j in 0..k {
        if !known_at(scratch, spans, k, work, bindings, n, j) {
            return false;
        }
    }
    true
}

// Is the prefix of attribute j known? A declaration has none.
fn known_at(
    scratch: &[u8],
    spans: &[u32],
    k: usize,
    work: &[u8],
    bindings: &[u32],
    n: usize,
    j: usize,
) -> bool
    ensures { result ≡ known_at (scope scratch.now spans.now k work.now bindings.now n) scratch.now spans.now j }
{
    if start_names::is_declaration(start_names::name_of(scratch, spans, j)) {
        return true;
    }
    let prefix = start_names::prefix_of(scratch, spans, j);
    known(prefix, scratch, spans, k, work, bindings, n)
}

// Is the prefix known, or empty?
fn known(
    prefix: &[u8],
    scratch: &[u8],
    spans: &[u32],
    k: usize,
    work: &[u8],
    bindings: &[u32],
    n: usize,
) -> bool
    ensures { result ≡ known_prefix (scope scratch.now spans.now k work.now bindings.now n) prefix.now }
{
    if prefix.len() == 0 {
        return true;
    }
    let found = start_names::lookup(prefix, scratch, spans, k, work, bindings, n);
    match found {
        Found::Unknown => false,
        Found::Xml => true,
        Found::Own(_, _) => true,
        Found::Held(_, _) => true,
    }
}

// The element is copied, and one more is open.
fn copy_element(
    r: Registers,
    frames: &mut [u32],
    bindings: &mut [u32],
    inners: &mut [u32],
    work: &mut [u8],
    scratch: &[u8],
    spans: &[u32],
    name: &[u8],
    k: usize,
    area: &mut [u8],
) -> Result<Done, Refusal>
    requires { Ready r frames.old bindings.old inners.old work.old scratch.now spans.now name.now k area.old }
    ensures { Quietly (opening name.now (attributes_of scratch.now spans.now k)) r result frames.old bindings.old inners.old work.old frames.new bindings.new inners.new work.new }
{
    let size = start_tag(area, scratch, spans, name, k);
    let more = name.len() + start_element::declared_size(scratch, spans, k);
    let added = add(r, frames, work, area, size, more)?;
    let behind = added.registers;
    let open = enter(
        behind, bindings, inners, work, scratch, spans, name, k, more,
    );
    Ok(Done {
        written: 0,
        registers: open,
    })
}

// One more element, whose name and bindings have `more` bytes.
fn enter(
    r: Registers,
    bindings: &mut [u32],
    inners: &mut [u32],
    work: &mut [u8],
    scratch: &[u8],
    spans: &[u32],
    name: &[u8],
    k: usize,
    more: usize,
) -> Registers
    requires { Room r bindings.old work.old name.now (declared (attributes_of scratch.now spans.now k)) more }
    ensures { Enters r bindings.old inners.old work.old name.now (declared (attributes_of scratch.now spans.now k)) more result bindings.new inners.new work.new }
{
    let at = r.store.low - more;
    copy::put(work, at, name);
    let from = Next {
        at: at + name.len(),
        row: r.counts.bindings,
    };
    let next = start_element::bind_all(work, bindings, from, scratch, spans, k);
    state_inner::open_inside(r, inners, at, name.len(), next.row).unwrap_or(r)
}

// The start tag's XML text from the front of `area`.
fn start_tag(area: &mut [u8], scratch: &[u8], spans: &[u32], name: &[u8], k: usize) -> usize
    ensures { Put true area.old area.new 0 result (start_tag_xml name.now (attributes_of scratch.now spans.now k)) }
{
    let to = xmltext::open_tag(area, 0, true, name);
    let to = attributes(area, to, scratch, spans, k);
    xmltext::close_tag(area, to, true)
}

// All attributes, in written order.
fn attributes(area: &mut [u8], at: usize, scratch: &[u8], spans: &[u32], k: usize) -> usize
    ensures { Put true area.old area.new at result (attributes_xml (attributes_of scratch.now spans.now k)) }
{
    let mut to = at;
    for j in 0..k {
        let name = start_names::name_of(scratch, spans, j);
        let value = start_names::value_of(scratch, spans, j);
        to = xmltext::attribute(area, to, true, name, value);
    }
    to
}
