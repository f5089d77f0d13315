// The rules that a start tag outside Literal content is judged by, once it is read: 14, 19, 15, 18, and the limits on what is kept (7).
ghost use Rattle.std.specs.Prelude.{◌≡◌, not, true, ◌*◌, ◌<◌, ◌≤◌, length};
ghost use Rattle.start_element.specs.Element.{Fitting};
ghost use Rattle.start_element.specs.Sizes.{Short};
ghost use Rattle.start_tag.specs.Giving.{is_missing, Gives};
ghost use Rattle.spec.specs.Limits.{most_attributes, most_held_bytes, most_labels};
ghost use Rattle.start_tag.specs.Names.{iri_text};
ghost use Rattle.start_tag.specs.Limits.{room_for_id, Fits};
ghost use Rattle.start_tag.specs.Judges.{Judges, Drafts, start_by};
ghost use Rattle.start_tag.specs.Nodes.{Ready, MakesNode, JudgesNode};
ghost use Rattle.start_tag.specs.Properties.{property_plan, MakesProperty, JudgesProperty, Labels, Numbers, Left};
ghost use Rattle.start_tag.specs.Packets.{Keeps};
ghost use Rattle.start_tag.specs.Places.{JudgesRoot, opens_at, is_wrapped};

use crate::reading::Tag;
use event::Place;
use spec::Refusal;
use start_element::{Parts, Pending, Source};
use start_plan::{Given, Plan, Start};
use start_references::reference::{Area, Reference};
use start_rules::ParseType;
use state::Registers;
use state_words::{Frame, Kind};

// What a start tag opens.
#[derive(Clone, Copy)]
enum Opens {
    Rdf,
    Node,
    Property,
}

// A start tag that was read: its production's rules, then the limits, in one place for all, as what is planned is long to copy.
pub fn judge_tag(
    t: Tag,
    r: Registers,
    count: usize,
    used: usize,
    frames: &[u32],
    work: &[u8],
    scratch: &[u8],
    spans: &[u32],
    m: usize,
    k: usize,
    area: &mut [u8],
) -> Result<Start, Refusal>
    requires { Ready scratch.now spans.now k area.old }
    ensures { Judges result t r count used frames.now work.now scratch.now spans.now m k area.old area.new }
{
    let start = draft(t, r, frames, work, scratch, spans, k, area)?;
    let plan = start.plan;
    let parts = plan.parts;
    let id = start.id;
    if !fits(
        parts,
        id,
        r.store.top.saturating_sub(r.store.noted),
        count,
        used,
        scratch,
        spans,
        m,
        k,
        area,
    ) {
        return Err(Refusal::OverLimit);
    }
    Ok(start)
}

// By what it stands in.
fn draft(
    t: Tag,
    r: Registers,
    frames: &[u32],
    work: &[u8],
    scratch: &[u8],
    spans: &[u32],
    k: usize,
    area: &mut [u8],
) -> Result<Start, Refusal>
    requires { Ready scratch.now spans.now k area.old }
    ensures { Drafts result t r frames.now work.now scratch.now spans.now k area.old area.new }
{
    let iri = t.iri;
    let place = event::place_at(r, frames);
    let wrapped = is_wrapped(place, r.counts.depth);
    let g = crate::giving::given(t, spans, k);
    let kept = crate::packets::keeps(t, r, frames, work, scratch, spans, k, area);
    match opened_at(place, iri_text(iri, area)) {
        Opens::Rdf => judge_root(
            t, g, r, wrapped, kept, frames, work, scratch, spans, k, area,
        ),
        Opens::Node => judge_node(
            t, g, r, wrapped, kept, frames, work, scratch, spans, k, area,
        ),
        Opens::Property => judge_property(t, g, r, kept, frames, work, scratch, spans, k, area),
    }
}

// The root is rdf:RDF or a node element.
fn opened_at(place: Place, name: &[u8]) -> Opens
    ensures { result ≡ opens_at place name.now }
{
    match place {
        Place::Outside => {
            if start_rules::is_rdf(name) {
                return Opens::Rdf;
            }
            Opens::Node
        }
        Place::Nodes => Opens::Node,
        Place::Properties => Opens::Property,
        Place::NodesOrText => Opens::Node,
        Place::Xml => Opens::Node,
    }
}

// Does it stand in the wrapper, where its children are counted?
fn is_wrapped(place: Place, depth: usize) -> bool
    ensures { result ≡ is_wrapped place depth }
{
    match place {
        Place::Outside => depth > 0,
        Place::Nodes => false,
        Place::Properties => false,
        Place::NodesOrText => false,
        Place::Xml => false,
    }
}

// rdf:RDF.
fn judge_root(
    t: Tag,
    g: Given,
    r: Registers,
    wrapped: bool,
    kept: bool,
    frames: &[u32],
    work: &[u8],
    scratch: &[u8],
    spans: &[u32],
    k: usize,
    area: &[u8],
) -> Result<Start, Refusal>
    requires { Gives t spans.now k g
        × Keeps kept t r frames.now work.now scratch.now spans.now k area.now }
    ensures { JudgesRoot result t r wrapped frames.now work.now scratch.now spans.now k area.now }
{
    if !kept {
        return Err(Refusal::ProfileBroken);
    }
    if !t.short {
        return Err(Refusal::OverLimit);
    }
    let p = start_plan::root(g, crate::packets::rdf_part(r.mode), r.counts.labels);
    let x = start_by(p, t, wrapped, true, Source::Missing);
    Ok(x)
}

// A node element. Its label is made in the area.
fn judge_node(
    t: Tag,
    g: Given,
    r: Registers,
    wrapped: bool,
    kept: bool,
    frames: &[u32],
    work: &[u8],
    scratch: &[u8],
    spans: &[u32],
    k: usize,
    area: &mut [u8],
) -> Result<Start, Refusal>
    requires { Ready scratch.now spans.now k area.old × Gives t spans.now k g
        × Keeps kept t r frames.now work.now scratch.now spans.now k area.old }
    ensures { JudgesNode result t r wrapped frames.now work.now scratch.now spans.now k area.old area.new }
{
    let iri = t.iri;
    let id = t.id;
    let about = t.about;
    let name = iri_text(iri, area);
    let reserved = start_rules::is_reserved_node(name);
    if reserved {
        return Err(Refusal::Reserved);
    }
    if !kept {
        return Err(Refusal::ProfileBroken);
    }
    let described = start_rules::is_description(name);
    let part = crate::packets::node_part(r.mode, name);
    let named = !is_missing(id);
    let told = !is_missing(about);
    start_rules::judge_node(reserved, named, t.node < k, told, r.counts.labels)?;
    if !t.short {
        return Err(Refusal::OverLimit);
    }
    let start = make_node(
        t,
        g,
        part,
        !described,
        wrapped,
        r.counts.labels,
        scratch,
        spans,
        k,
        area,
    );
    Ok(start)
}

// A property element in the node on top. The number of an rdf:li and the label that it takes are made in the area.
fn judge_property(
    t: Tag,
    g: Given,
    r: Registers,
    kept: bool,
    frames: &[u32],
    work: &[u8],
    scratch: &[u8],
    spans: &[u32],
    k: usize,
    area: &mut [u8],
) -> Result<Start, Refusal>
    requires { Ready scratch.now spans.now k area.old × Gives t spans.now k g
        × Keeps kept t r frames.now work.now scratch.now spans.now k area.old }
    ensures { JudgesProperty result t r frames.now work.now scratch.now spans.now k area.old area.new }
{
    let around = state_stack::top(r, frames);
    let has = around.has;
    let numbers = has[Frame::COUNT] as u64;
    let iri = t.iri;
    let object = t.resource;
    let name = iri_text(iri, area);
    let reserved = start_rules::is_reserved_property(name);
    if reserved {
        return Err(Refusal::Reserved);
    }
    if !kept {
        return Err(Refusal::ProfileBroken);
    }
    let li = start_rules::is_li(name);
    let parse = start_rules::parse_type_of(
        t.parse < k,
        start_names::value_of(scratch, spans, t.parse),
    );
    let resource = !is_missing(object);
    start_rules::judge_property(
        reserved,
        li,
        numbers,
        parse,
        resource,
        t.node < k,
        t.properties,
        r.counts.labels,
    )?;
    if !t.short {
        return Err(Refusal::OverLimit);
    }
    let takes = start_rules::takes_label(parse, resource, t.node < k, t.properties);
    let start = make_property(
        t,
        g,
        parse,
        takes,
        li,
        numbers,
        r.counts.labels,
        scratch,
        spans,
        k,
        area,
    );
    Ok(start)
}

// A property element that is good.
fn make_property(
    t: Tag,
    g: Given,
    parse: ParseType,
    takes: bool,
    li: bool,
    numbers: u64,
    labels: u64,
    scratch: &[u8],
    spans: &[u32],
    k: usize,
    area: &mut [u8],
) -> Start
    requires { Ready scratch.now spans.now k area.old × Gives t spans.now k g × Left takes li labels numbers }
    ensures { MakesProperty result t parse takes li numbers labels scratch.now spans.now k area.old area.new }
{
    let iri = t.iri;
    let behind = label_if(takes, labels, area);
    let property = numbered(li, numbers, iri, area);
    let p = property_plan(parse, g, property, t.properties, behind);
    start_by(p, t, li, true, property)
}

// By its rdf:parseType.
fn property_plan(
    parse: ParseType,
    g: Given,
    property: Source,
    attributes: bool,
    labels: u64,
) -> Plan
    ensures { result ≡ property_plan parse g property attributes labels }
{
    match parse {
        ParseType::Absent => start_plan::default(g, property, attributes, labels),
        ParseType::Collection => start_plan::held(
            Kind::ParseTypeCollectionPropertyElt,
            g,
            property,
            labels,
        ),
        ParseType::Resource => start_plan::resource(g, labels),
        ParseType::Literal => start_plan::held(
            Kind::ParseTypeLiteralPropertyElt,
            g,
            property,
            labels,
        ),
        ParseType::Other => start_plan::held(Kind::ParseTypeOtherPropertyElt, g, property, labels),
    }
}

// The property's IRI: rdf:_n for an rdf:li, else the element's.
fn numbered(li: bool, numbers: u64, iri: Reference, area: &mut [u8]) -> Source
    requires { (most_held_bytes ≤ length area.old) × (li ≡ true → numbers < most_labels) }
    ensures { Numbers li numbers iri area.old area.new result }
{
    if !li {
        return crate::giving::made(Area::IRI, iri);
    }
    let n = start_rules::property_iri(area, Area::PROPERTY, numbers);
    Source::Made(Area::PROPERTY, n)
}

// The next label, where one is taken. Answers how many are generated by then.
fn label_if(takes: bool, labels: u64, area: &mut [u8]) -> u64
    requires { (most_held_bytes ≤ length area.old) × (takes ≡ true → labels < most_labels) }
    ensures { Labels takes labels area.old area.new result }
{
    if !takes {
        return labels;
    }
    start_rules::make_label(area, Area::LABEL, labels)
}

// A node element that is good, and the label that it takes.
fn make_node(
    t: Tag,
    g: Given,
    part: Pending,
    named: bool,
    wrapped: bool,
    labels: u64,
    scratch: &[u8],
    spans: &[u32],
    k: usize,
    area: &mut [u8],
) -> Start
    requires { Ready scratch.now spans.now k area.old × Gives t spans.now k g × (labels < most_labels) }
    ensures { MakesNode result t part named wrapped labels scratch.now spans.now k area.old area.new }
{
    let behind = start_rules::make_label(area, Area::LABEL, labels);
    let p = start_plan::build_node_elt(g, part, behind);
    start_by(p, t, wrapped, named, Source::Missing)
}

// What is carried out by a plan; `named` but for rdf:Description, which only a node element has as its name.
fn start_by(p: Plan, t: Tag, li: bool, named: bool, property: Source) -> Start
    ensures { result ≡ start_by p t li named property }
{
    let own = t.id;
    let typed = t.kind;
    let name = t.iri;
    let id = crate::giving::made(Area::ID, own);
    let kind = crate::giving::made(Area::TYPE, typed);
    let iri = crate::giving::made(Area::IRI, name);
    Start {
        plan: p,
        li,
        id,
        kind,
        iri,
        named,
        property,
    }
}

// The element's expanded name; empty where it is too long.
pub fn iri_text(iri: Reference, area: &[u8]) -> &[u8]
    ensures { result.now ≡ iri_text iri area.now }
{
    match iri {
        Reference::Missing => &area[0..0],
        Reference::Bad => &area[0..0],
        Reference::Long => &area[0..0],
        Reference::Made(n) => copy::piece(area, Area::IRI, n),
    }
}

pub fn is_missing(reference: Reference) -> bool
    ensures { result ≡ is_missing reference }
{
    match reference {
        Reference::Missing => true,
        Reference::Bad => false,
        Reference::Long => false,
        Reference::Made(_) => false,
    }
}

// 7: the rdf:IDs, their bytes, held bytes.
fn fits(
    parts: Parts,
    id: Source,
    top: usize,
    count: usize,
    used: usize,
    scratch: &[u8],
    spans: &[u32],
    m: usize,
    k: usize,
    area: &[u8],
) -> bool
    requires { (Short scratch.now area.now) × (k ≤ most_attributes) × (Fitting parts) }
    ensures { Fits result parts id top count used scratch.now spans.now m k area.now }
{
    let n = start_element::size(scratch, spans, m, k, area, parts);
    if !id_fits(id, count, used, scratch, area) {
        return false;
    }
    if top > Registers::MOST_HELD {
        return false;
    }
    n <= Registers::MOST_HELD - top
}

// Is there room for the rdf:ID, if there is one?
fn id_fits(id: Source, count: usize, used: usize, scratch: &[u8], area: &[u8]) -> bool
    ensures { result ≡ room_for_id count used id scratch.now area.now }
{
    match id {
        Source::Missing => true,
        Source::Own(at, n) => state_ids::room(count, used, copy::piece(scratch, at, n).len()),
        Source::Made(at, n) => state_ids::room(count, used, copy::piece(area, at, n).len()),
    }
}
