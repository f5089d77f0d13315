// The rules that the XMP profile adds for a start tag that was read: document 02, request 1.
ghost use Rattle.std.specs.Prelude.{◌≡◌, false, not};
ghost use Rattle.start_tag.specs.Packets.{Keeps, rdf_part, node_part, none_out_by, around_by, kind_by, top_level_by, same_about_by, awaits, noted_about, carries_by, awaits_rdf, is_free};

use crate::reading::Tag;
use copy::words::wide;
use spec::Mode;
use start_element::Pending;
use start_references::reference::{Area, Reference};
use state::Registers;
use state_words::{Frame, Kind};

// Does a start tag keep the rules of the profile of its document?
pub fn keeps(
    t: Tag,
    r: Registers,
    frames: &[u32],
    work: &[u8],
    scratch: &[u8],
    spans: &[u32],
    k: usize,
    area: &[u8],
) -> bool
    ensures { Keeps result t r frames.now work.now scratch.now spans.now k area.now }
{
    if !r.mode.xmp {
        return true;
    }
    if has_one_out(t, scratch, spans, k) {
        return false;
    }
    let iri = t.iri;
    let about = t.about;
    let language = t.language;
    let name = crate::judging::iri_text(iri, area);
    keeps_around(
        r.counts.depth,
        frames,
        work,
        name,
        about,
        area,
        language.is_said(),
    )
}

// What a new rdf:RDF is in a packet: the rdf:about of its children is awaited.
pub fn rdf_part(mode: Mode) -> Pending
    ensures { result ≡ rdf_part mode.xmp }
{
    if mode.xmp {
        Pending::Awaited
    } else {
        Pending::Absent
    }
}

// What a new node element is in a packet: the first rdf:li of an rdf:Alt is awaited.
pub fn node_part(mode: Mode, name: &[u8]) -> Pending
    ensures { result ≡ node_part mode.xmp name.now }
{
    if !mode.xmp {
        return Pending::Absent;
    }
    if !start_rules::is_alt(name) {
        return Pending::Absent;
    }
    Pending::Awaited
}

// Has it rdf:ID, rdf:nodeID, rdf:datatype or an rdf:parseType but Resource?
fn has_one_out(t: Tag, scratch: &[u8], spans: &[u32], k: usize) -> bool
    ensures { result ≡ not (none_out_by t scratch.now spans.now k) }
{
    let id = t.id;
    let datatype = t.datatype;
    if !crate::judging::is_missing(id) {
        return true;
    }
    if t.node < k {
        return true;
    }
    if !crate::judging::is_missing(datatype) {
        return true;
    }
    if k <= t.parse {
        return false;
    }
    !copy::equal(start_names::value_of(scratch, spans, t.parse), b"Resource")
}

// By the element around it; without the wrapper the root is rdf:RDF.
fn keeps_around(
    depth: usize,
    frames: &[u32],
    work: &[u8],
    name: &[u8],
    about: Reference,
    area: &[u8],
    tagged: bool,
) -> bool
    ensures { result ≡ around_by depth frames.now work.now name.now about area.now tagged }
{
    if awaits_rdf(depth, frames) {
        return start_rules::is_rdf(name);
    }
    let f = Frame::load(frames, depth - 1);
    keeps_kind(f, work, name, about, area, tagged)
}

// Is nothing around it, or the wrapper without its rdf:RDF so far?
fn awaits_rdf(depth: usize, frames: &[u32]) -> bool
    ensures { result ≡ awaits_rdf depth frames.now }
{
    if depth == 0 {
        return true;
    }
    let f = Frame::load(frames, depth - 1);
    let has = f.has;
    (f.kind == Kind::Wrapper) & (has[Frame::COUNT] == 0)
}

// By that element's kind. The wrapper has its rdf:RDF.
fn keeps_kind(
    f: Frame,
    work: &[u8],
    name: &[u8],
    about: Reference,
    area: &[u8],
    tagged: bool,
) -> bool
    requires { is_free f ≡ false }
    ensures { result ≡ kind_by f.kind f work.now name.now about area.now tagged }
{
    let kind = f.kind;
    match kind {
        Kind::Rdf => is_top_level(f, work, name, about, area),
        Kind::NodeElt => carries_too(f, name, tagged),
        Kind::PropertyElt => true,
        Kind::ParseTypeCollectionPropertyElt => true,
        Kind::ParseTypeLiteralPropertyElt => true,
        Kind::ParseTypeOtherPropertyElt => true,
        Kind::Wrapper => false,
    }
}

// In rdf:RDF of a packet: rdf:Description, with the same rdf:about as those before.
fn is_top_level(f: Frame, work: &[u8], name: &[u8], about: Reference, area: &[u8]) -> bool
    ensures { result ≡ top_level_by f work.now name.now about area.now }
{
    let has = f.has;
    if has[Frame::PART] == Frame::ORDINARY {
        return true;
    }
    if !start_rules::is_description(name) {
        return false;
    }
    same_about(f, work, about, area)
}

// The first rdf:about, or the one that is noted; what is noted is never longer than an IRI may be.
fn same_about(f: Frame, work: &[u8], about: Reference, area: &[u8]) -> bool
    ensures { result ≡ same_about_by about (awaits f) (noted_about f work.now) area.now }
{
    let at = f.at;
    let has = f.has;
    let first = has[Frame::PART] == Frame::AWAITED;
    match about {
        Reference::Missing => false,
        Reference::Bad => false,
        Reference::Long => first,
        Reference::Made(n) => {
            if first {
                return true;
            }
            let from = wide(at[Frame::TAIL]);
            let size = wide(at[Frame::END]).saturating_sub(from);
            copy::equal(
                copy::piece(area, Area::ABOUT, n),
                copy::piece(work, from, size),
            )
        }
    }
}

// In an rdf:Alt whose first rdf:li carries xml:lang, every other one does too.
fn carries_too(f: Frame, name: &[u8], tagged: bool) -> bool
    ensures { result ≡ carries_by f name.now tagged }
{
    let has = f.has;
    if has[Frame::PART] != Frame::CARRIED {
        return true;
    }
    if tagged {
        return true;
    }
    !start_rules::is_li(name)
}
