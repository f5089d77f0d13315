// A start tag outside Literal content, read: refusals 8 to 14 in their order, and everything that a production looks at.
ghost use Rattle.std.specs.Prelude.{◌≡◌, not, ◌++◌, ◌≤◌, length};
ghost use Rattle.std.proofs.Math.Option.{some};
ghost use Rattle.spec.specs.Bytes.{every};
ghost use Rattle.spec.specs.Numbers.{good};
ghost use Rattle.start_names.specs.Tag.{back_of};
ghost use Rattle.start_names.specs.Found.{found_bytes};
ghost use Rattle.start_references.specs.Reference.{Resolves};
ghost use Rattle.start_references.specs.Values.{value_if};
ghost use Rattle.start_attributes.specs.Places.{places};
ghost use Rattle.start_attributes.specs.Short.{short_at};
ghost use Rattle.state_ids.specs.Ids.{SpansIn};
ghost use Rattle.start_tag.specs.Made.{is_unknown, iri_of, MadeLanguage, short_if, short_by, RoomToMake, Finished};
ghost use Rattle.start_tag.specs.Tag.{Asks};
ghost use Rattle.start_tag.specs.Reading.{ReadsTag};

use resolve::Resolved;
use spec::Refusal;
use start_attributes::roles::Role;
use start_names::{Class, Found, XML};
use start_references::References;
use start_references::reference::{Area, Reference};
use state::Registers;
use state::language::Own;
use state_ids::IdTable;

// What a tag says. Some attributes are told by their places, which are k where there is none; what is made stands in the area.
#[derive(Clone, Copy)]
pub struct Tag {
    // The expanded name.
    pub iri: Reference,
    // The places of xml:base, rdf:nodeID and rdf:parseType.
    pub base: usize,
    pub node: usize,
    pub parse: usize,
    // What it says of its language.
    pub language: Own,
    // rdf:ID, rdf:about, rdf:resource, rdf:datatype and rdf:type, resolved.
    pub id: Reference,
    pub about: Reference,
    pub resource: Reference,
    pub datatype: Reference,
    pub kind: Reference,
    // Has it property attributes?
    pub properties: bool,
    // Has every name, IRI and base of it at most the bytes that it may have?
    pub short: bool,
}

// A tag opens the wrapper of a packet, whose attributes are ignored, or says this.
#[derive(Clone, Copy)]
pub enum Read {
    Wrapper,
    Element(Tag),
}

// A tag whose name is the first m bytes of the scratch, with its colon at c, and that has k attributes, which are classified.
pub fn read_tag<'a>(
    r: Registers,
    frames: &[u32],
    bindings: &[u32],
    work: &'a [u8],
    count: usize,
    starts: &[u32; IdTable::MOST],
    sizes: &[u32; IdTable::MOST],
    ids: &[u8],
    scratch: &'a [u8],
    spans: &[u32],
    m: usize,
    c: usize,
    k: usize,
    classes: &[usize],
    roles: &mut [u8],
    area: &mut [u8],
) -> Result<Read, Refusal>
    requires { Asks scratch.now spans.now m c k work.now bindings.now r.counts.bindings classes.now roles.old area.old × SpansIn count starts.now sizes.now ids.now }
    ensures { ReadsTag r frames.now bindings.now work.now count starts.now sizes.now ids.now scratch.now spans.now m k classes.now roles.old area.old roles.new area.new result }
{
    let name = copy::piece(scratch, 0, m);
    let found = start_names::element(
        name,
        c,
        scratch,
        spans,
        k,
        work,
        bindings,
        r.counts.bindings,
    );
    if is_unknown(found) {
        return Err(Refusal::NoNamespace);
    }
    if crate::wrapper::is_wrapper(r.mode, r.counts.depth, found, name, c, scratch, work) {
        return Ok(Read::Wrapper);
    }
    start_attributes::read_attributes(scratch, spans, k, work, classes, roles)?;
    let references = start_references::resolve_references(
        r, frames, work, count, starts, sizes, ids, scratch, spans, k, roles, area,
    )?;
    let tag = tag_of(
        found, name, c, scratch, spans, k, work, classes, roles, references, area,
    );
    Ok(Read::Element(tag))
}

fn is_unknown(found: Found) -> bool
    ensures { result ≡ is_unknown found }
{
    match found {
        Found::Unknown => true,
        Found::Xml => false,
        Found::Own(_, _) => false,
        Found::Held(_, _) => false,
    }
}

// A tag in which nothing is wrong: its expanded name and its language are made.
fn tag_of<'a>(
    found: Found,
    name: &[u8],
    c: usize,
    scratch: &'a [u8],
    spans: &[u32],
    k: usize,
    work: &'a [u8],
    classes: &[usize],
    roles: &[u8],
    references: References,
    area: &mut [u8],
) -> Tag
    requires { RoomToMake scratch.now area.old }
    ensures { Finished found name.now c scratch.now spans.now k work.now classes.now roles.now references area.old area.new result }
{
    let id = references.id;
    let others = references.others;
    let about = others.about;
    let resource = others.resource;
    let datatype = others.datatype;
    let kind = others.kind;
    let iri = make_iri(found, name, c, scratch, work, area);
    let base = start_attributes::first_in(roles, k, Role::XmlBase);
    let place = start_attributes::first_in(roles, k, Role::XmlLang);
    let language = make_language(scratch, spans, k, place, area);
    let property = start_attributes::first_in(roles, k, Role::Property);
    Tag {
        iri,
        base,
        node: start_attributes::first_in(roles, k, Role::NodeId),
        parse: start_attributes::first_in(roles, k, Role::ParseType),
        language,
        id,
        about,
        resource,
        datatype,
        kind,
        properties: property < k,
        short: is_short(scratch, spans, k, work, classes, base, iri, references),
    }
}

// The namespace and the local part, joined at their place.
fn make_iri<'a>(
    found: Found,
    name: &[u8],
    c: usize,
    scratch: &'a [u8],
    work: &'a [u8],
    area: &mut [u8],
) -> Reference
    requires { 6144 ≤ length area.old }
    ensures { Resolves (iri_of (found_bytes scratch.now work.now found) (back_of c name.now)) area.old area.new 5120 result }
{
    if is_unknown(found) {
        return Reference::Missing;
    }
    join(
        start_names::space_of(Class::from(found), scratch, work, &XML),
        start_names::back_of(name, c),
        area,
    )
}

fn join(space: &[u8], local: &[u8], area: &mut [u8]) -> Reference
    requires { 6144 ≤ length area.old }
    ensures { Resolves (good (some (space.now ++ local.now))) area.old area.new 5120 result }
{
    let n = space.len();
    if Resolved::MOST_BYTES < n {
        return Reference::Long;
    }
    if Resolved::MOST_BYTES - n < local.len() {
        return Reference::Long;
    }
    copy::put(area, Area::IRI, space);
    copy::put(area, Area::IRI + n, local);
    Reference::Made(n + local.len())
}

// What xml:lang, at place j of k, says of the language: its value in lower case, and where that is empty, none.
fn make_language(scratch: &[u8], spans: &[u32], k: usize, j: usize, area: &mut [u8]) -> Own
    requires { RoomToMake scratch.now area.old }
    ensures { MadeLanguage scratch.now spans.now k j area.old area.new result }
{
    if k <= j {
        return Own::Unsaid;
    }
    let value = start_names::value_of(scratch, spans, j);
    if value.len() == 0 {
        return Own::Cleared;
    }
    langtag::lowercase_into(area, Area::TAG, value);
    Own::Given(Area::TAG, value.len())
}

// "any expanded name, IRI or base 1,024 bytes"; the tag's own base is at place j.
fn is_short<'a>(
    scratch: &'a [u8],
    spans: &[u32],
    k: usize,
    work: &'a [u8],
    classes: &[usize],
    j: usize,
    iri: Reference,
    references: References,
) -> bool
    ensures { result ≡ short_by iri (every (short_at scratch.now spans.now work.now classes.now) (places 0 k)) (value_if scratch.now spans.now k j) references }
{
    let id = references.id;
    let others = references.others;
    if iri.is_long() {
        return false;
    }
    if !start_attributes::names_short(scratch, spans, k, work, classes) {
        return false;
    }
    if is_long_value(scratch, spans, k, j) {
        return false;
    }
    if id.is_long() {
        return false;
    }
    !others.is_long()
}

// Is there an attribute j of k, and its value longer than an IRI may be?
fn is_long_value(scratch: &[u8], spans: &[u32], k: usize, j: usize) -> bool
    ensures { result ≡ not (short_if (value_if scratch.now spans.now k j)) }
{
    if k <= j {
        return false;
    }
    Resolved::MOST_BYTES < start_names::value_of(scratch, spans, j).len()
}
