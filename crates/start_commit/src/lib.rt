// A start tag outside Literal content that was judged good, carried out: its lines measured and written, its element and its rdf:ID kept.
#![tactic(auto)]

ghost use Rattle.std.specs.Prelude.{◌≡◌, true, false, ◌||◌, length, take};
ghost use Rattle.spec.specs.NTriples.{write};
ghost use Rattle.spec.specs.Pyx.{opening};
ghost use Rattle.state_ids.specs.Ids.{ValidIds, room_for};
ghost use Rattle.state.specs.Meaning.{at, span, subject_of};
ghost use Rattle.start_names.specs.Tag.{attributes_of};
ghost use Rattle.writer.specs.Put.{Put};
ghost use Rattle.writer.specs.Said.{Says};
ghost use Rattle.state_stack.specs.Calls.{top_frame};
ghost use Rattle.state_inner.specs.Calls.{language_in};
ghost use Rattle.event.specs.Progress.{Lawful, HandlesAll, doc_in, lent};
ghost use Rattle.start_element.specs.Element.{text_of, maybe};
ghost use Rattle.start_plan.specs.Plan.{is_there};
ghost use Rattle.start_plan.specs.Goes.{Goes};
ghost use Rattle.start_commit.specs.Told.{lines_of, node_lines, object_lines, resource_lines};
ghost use Rattle.start_commit.specs.Entered.{Enters};
ghost use Rattle.state_words.specs.Parts.{MAIN, ID};

use copy::words::wide;
use event::Advance;
use ntriples::{Node, Term};
use spec::Refusal;
use start_element::Source;
use start_plan::{Lines, Start};
use state::language::tag_in_force;
use state::{Registers, Span};
use state_ids::{Filled, IdTable};
use state_words::Frame;

// 2 where the lines have no room; else they are written, and all is kept.
pub fn act<'a>(
    x: Start,
    r: Registers,
    count: usize,
    used: usize,
    frames: &mut [u32],
    bindings: &mut [u32],
    inners: &[u32],
    work: &mut [u8],
    id_at: &mut [u32; IdTable::MOST],
    id_len: &mut [u32; IdTable::MOST],
    ids: &mut [u8],
    scratch: &'a [u8],
    spans: &[u32],
    m: usize,
    k: usize,
    area: &'a [u8],
    classes: &[usize],
    roles: &[u8],
    out: &mut [u8],
) -> Result<Advance, Refusal>
    requires { Lawful r count used (lent frames.old bindings.old inners.now work.old id_at.old id_len.old ids.old out.old) × (r.flags.closed ≡ false) × (r.counts.inner ≡ 0) × Goes x (doc_in r count (lent frames.old bindings.old inners.now work.old id_at.old id_len.old ids.old out.old)) r frames.old bindings.old work.old scratch.now spans.now m k area.now classes.now roles.now count used }
    ensures { HandlesAll (opening (take m scratch.now) (attributes_of scratch.now spans.now k)) r count result (lent frames.old bindings.old inners.now work.old id_at.old id_len.old ids.old out.old) (lent frames.new bindings.new inners.now work.new id_at.new id_len.new ids.new out.new) }
{
    let written = say(
        out, x, r, frames, work, scratch, spans, k, area, classes, roles,
    )?;
    let plan = x.plan;
    let parts = plan.parts;
    let own_id = x.id;
    let behind = start_element::commit(
        r,
        frames,
        bindings,
        work,
        scratch,
        spans,
        m,
        k,
        area,
        parts,
        x.li,
        plan.labels,
    );
    let table = enter(own_id, count, used, id_at, id_len, ids, scratch, area);
    Ok(Advance {
        written,
        registers: behind,
        count: table.count,
        used: table.used,
    })
}

// The lines, if all of them have room.
fn say<'a>(
    out: &mut [u8],
    x: Start,
    r: Registers,
    frames: &[u32],
    work: &'a [u8],
    scratch: &'a [u8],
    spans: &[u32],
    k: usize,
    area: &'a [u8],
    classes: &[usize],
    roles: &[u8],
) -> Result<usize, Refusal>
    ensures { Says out.old out.new (write (lines_of x (top_frame r frames.now) (language_in r frames.now) work.now scratch.now spans.now k area.now classes.now roles.now)) result }
{
    let plan = x.plan;
    let lines = plan.lines;
    if let Lines::Nothing = lines {
        return Ok(0);
    }
    let around = state_stack::top(r, frames);
    let language = state_inner::language_in_force(r, frames);
    let mut draft = [0u8; writer::DRAFT];
    let size = tell(
        &mut draft, true, x, around, language, work, scratch, spans, k, area, classes, roles,
    );
    if out.len() < size {
        return Err(Refusal::NoRoom);
    }
    if size <= writer::DRAFT {
        copy::put(out, 0, &draft[..size]);
        return Ok(size);
    }
    let written = tell(
        out, true, x, around, language, work, scratch, spans, k, area, classes, roles,
    );
    Ok(written)
}

// The lines of a start tag in the element of frame `around`; `language` is in force there.
fn tell<'a>(
    out: &mut [u8],
    on: bool,
    x: Start,
    around: Frame,
    language: Option<Span>,
    work: &'a [u8],
    scratch: &'a [u8],
    spans: &[u32],
    k: usize,
    area: &'a [u8],
    classes: &[usize],
    roles: &[u8],
) -> usize
    ensures { Put on out.old out.new 0 result (write (lines_of x around language work.now scratch.now spans.now k area.now classes.now roles.now)) }
{
    let plan = x.plan;
    let lines = plan.lines;
    match lines {
        Lines::Nothing => 0,
        Lines::Node => tell_node(
            out, on, x, language, work, scratch, spans, k, area, classes, roles,
        ),
        Lines::Object => tell_object(
            out, on, x, language, work, scratch, spans, k, area, classes, roles,
        ),
        Lines::Resource => tell_resource(out, on, x, around, work, scratch, area),
    }
}

// Those of its own node.
fn tell_node<'a>(
    out: &mut [u8],
    on: bool,
    x: Start,
    language: Option<Span>,
    work: &'a [u8],
    scratch: &'a [u8],
    spans: &[u32],
    k: usize,
    area: &'a [u8],
    classes: &[usize],
    roles: &[u8],
) -> usize
    ensures { Put on out.old out.new 0 result (write (node_lines x language work.now scratch.now spans.now k area.now classes.now roles.now)) }
{
    let plan = x.plan;
    let parts = plan.parts;
    let main = parts.main;
    let tag = parts.tag;
    let kind = x.kind;
    let iri = x.iri;
    let node = Node::of(parts.blank);
    let subject = start_element::text(main, scratch, area);
    let spoken = tag_in_force(tag, language, work, area);
    let typed = start_plan::is_there(kind);
    let own = start_element::text(kind, scratch, area);
    let type_of = typed.then_some(own);
    let name = start_element::text(iri, scratch, area);
    let element = x.named.then_some(name);
    start_lines::node_lines(
        out, 0, on, node, subject, spoken, scratch, spans, k, work, classes, roles, type_of,
        element,
    )
}

// Those of its object.
fn tell_object<'a>(
    out: &mut [u8],
    on: bool,
    x: Start,
    language: Option<Span>,
    work: &'a [u8],
    scratch: &'a [u8],
    spans: &[u32],
    k: usize,
    area: &'a [u8],
    classes: &[usize],
    roles: &[u8],
) -> usize
    ensures { Put on out.old out.new 0 result (write (object_lines x language work.now scratch.now spans.now k area.now classes.now roles.now)) }
{
    let plan = x.plan;
    let parts = plan.parts;
    let object = parts.object;
    let tag = parts.tag;
    let kind = x.kind;
    let node = Node::of(parts.what.is_blank());
    let subject = start_element::text(object, scratch, area);
    let spoken = tag_in_force(tag, language, work, area);
    let typed = start_plan::is_there(kind);
    let own = start_element::text(kind, scratch, area);
    let type_of = typed.then_some(own);
    start_lines::tag_lines(
        out, 0, on, node, subject, spoken, scratch, spans, k, work, classes, roles, type_of,
    )
}

// The statement of the property that it is, about the node around; its own node is the object.
fn tell_resource<'a>(
    out: &mut [u8],
    on: bool,
    x: Start,
    around: Frame,
    work: &[u8],
    scratch: &'a [u8],
    area: &'a [u8],
) -> usize
    ensures { Put on out.old out.new 0 result (write (resource_lines x (subject_of around work.now) scratch.now area.now)) }
{
    let plan = x.plan;
    let parts = plan.parts;
    let main = parts.main;
    let id = x.id;
    let property = x.property;
    let marks = around.has;
    let node = Node::of(marks[Frame::BLANK] != 0);
    let subject = main_of(around, work);
    let has = start_plan::is_there(id);
    let own = start_element::text(id, scratch, area);
    let stated = has.then_some(own);
    let name = start_element::text(property, scratch, area);
    let term = Term::from(Node::of(parts.blank));
    let object = start_element::text(main, scratch, area);
    ntriples::statement(
        out, 0, on, stated, node, subject, b"", name, term, b"", object, b"",
    )
}

// The subject of the node of frame `f`.
fn main_of(f: Frame, work: &[u8]) -> &[u8]
    ensures { result.now ≡ span work.now (at f MAIN) (at f ID) }
{
    let at = f.at;
    let from = wide(at[Frame::MAIN]);
    let to = wide(at[Frame::ID]);
    if to < from {
        return copy::piece(work, from, 0);
    }
    copy::piece(work, from, to - from)
}

// The rdf:ID is entered, if there is one; how far the table is filled then.
fn enter<'a>(
    id: Source,
    count: usize,
    used: usize,
    id_at: &mut [u32; IdTable::MOST],
    id_len: &mut [u32; IdTable::MOST],
    ids: &mut [u8],
    scratch: &'a [u8],
    area: &'a [u8],
) -> Filled
    requires { ValidIds count used id_at.old id_len.old ids.old × (is_there id ≡ true → room_for count used (length (text_of id scratch.now area.now)) ≡ true) }
    ensures { Enters (maybe id scratch.now area.now) count id_at.old id_len.old ids.old result id_at.new id_len.new ids.new }
{
    let filled = Filled { count, used };
    if !start_plan::is_there(id) {
        return filled;
    }
    let text = start_element::text(id, scratch, area);
    state_ids::add(count, used, id_at, id_len, ids, text).unwrap_or(filled)
}
