// The words of the rdf namespace that RDF/XML gives a meaning: RDF 1.1 XML Syntax, section 5.1.
ghost use Rattle.std.specs.Prelude.{◌≡◌, ◌++◌, ◌≤◌, length};
ghost use Rattle.spec.specs.Bytes.{same};
ghost use Rattle.start_attributes.specs.Vocabulary.{rdf_space, if_named, term_of, local_term};

use ntriples::RDF;

// One of them, or any other name.
#[derive(Clone, Copy, PartialEq, Eq, Debug)]
pub enum RdfTerm {
    Rdf,
    Description,
    Id,
    About,
    ParseType,
    Resource,
    NodeId,
    Datatype,
    Li,
    Type,
    AboutEach,
    AboutEachPrefix,
    BagId,
    Other,
}

// The term that an expanded name is, which is in two parts. Most names are in another namespace, and a few bytes tell.
pub fn rdf_term(space: &[u8], local: &[u8]) -> RdfTerm
    ensures { result ≡ term_of (space.now ++ local.now) }
{
    let n = RDF.len();
    if space.len() < n {
        return term_across(space, local, &RDF);
    }
    if !copy::equal(&RDF, &space[0..n]) {
        return RdfTerm::Other;
    }
    local_term(&space[n..], local)
}

// The same where the namespace, if it is that, ends in `local`; `rdf` is the rdf namespace.
fn term_across(space: &[u8], local: &[u8], rdf: &[u8]) -> RdfTerm
    requires { (rdf.now ≡ rdf_space) × (length space.now ≤ length rdf.now) }
    ensures { result ≡ term_of (space.now ++ local.now) }
{
    let m = space.len();
    let more = rdf.len() - m;
    if !copy::begins(local, &rdf[m..]) {
        return RdfTerm::Other;
    }
    if !copy::equal(space, &rdf[0..m]) {
        return RdfTerm::Other;
    }
    local_term(b"", &local[more..])
}

// The term of a name of the rdf namespace, from its local part, which may be in two. No three words have one length.
pub fn local_term(front: &[u8], back: &[u8]) -> RdfTerm
    ensures { result ≡ local_term (front.now ++ back.now) }
{
    match front.len() + back.len() {
        2 => either(front, back, b"ID", RdfTerm::Id, b"li", RdfTerm::Li),
        3 => only(front, back, b"RDF", RdfTerm::Rdf),
        4 => only(front, back, b"type", RdfTerm::Type),
        5 => either(
            front,
            back,
            b"about",
            RdfTerm::About,
            b"bagID",
            RdfTerm::BagId,
        ),
        6 => only(front, back, b"nodeID", RdfTerm::NodeId),
        8 => either(
            front,
            back,
            b"resource",
            RdfTerm::Resource,
            b"datatype",
            RdfTerm::Datatype,
        ),
        9 => either(
            front,
            back,
            b"parseType",
            RdfTerm::ParseType,
            b"aboutEach",
            RdfTerm::AboutEach,
        ),
        11 => only(front, back, b"Description", RdfTerm::Description),
        15 => only(front, back, b"aboutEachPrefix", RdfTerm::AboutEachPrefix),
        _ => RdfTerm::Other,
    }
}

// One term where the name is its word, the other where it is the other's.
fn either(
    front: &[u8],
    back: &[u8],
    word: &[u8],
    term: RdfTerm,
    other: &[u8],
    second: RdfTerm,
) -> RdfTerm
    ensures { result ≡ if_named (front.now ++ back.now) word.now term (if_named (front.now ++ back.now) other.now second RdfTerm.Other) }
{
    if is_joined(front, back, word) {
        return term;
    }
    only(front, back, other, second)
}

// The term where the name is its word.
fn only(front: &[u8], back: &[u8], word: &[u8], term: RdfTerm) -> RdfTerm
    ensures { result ≡ if_named (front.now ++ back.now) word.now term RdfTerm.Other }
{
    if is_joined(front, back, word) {
        return term;
    }
    RdfTerm::Other
}

// Are the two joined this name?
fn is_joined(front: &[u8], back: &[u8], name: &[u8]) -> bool
    ensures { result ≡ same (front.now ++ back.now) name.now }
{
    if front.len() == 0 {
        return copy::equal(back, name);
    }
    start_names::same_joined(front, back, name, b"")
}
