// N-Triples lines, counted always and stored where `on`: crate writer says how.
// A term is a kind and its bytes; an IRI or a text comes in two parts, since a namespace and a local name need not lie together.
#![tactic(auto)]

ghost use Rattle.std.specs.Prelude.{◌≡◌, ◌++◌, is_some};
ghost use Rattle.std.proofs.Math.Option.{some};
ghost use Rattle.spec.specs.NTriples.{blank, tagged, typed, triple, write_iri, write_subject, quoted, write_term, line, write};
ghost use Rattle.spec.specs.Productions.{reification, statement};
ghost use Rattle.writer.specs.Put.{Put};
ghost use Rattle.ntriples.specs.Terms.{node_for, subject_of, term_of, as_term, in_rdf, text_of, property_of, cell_of};

// What a subject is: its IRI or its label stands beside it.
#[derive(Clone, Copy, PartialEq, Eq, Debug)]
pub enum Node {
    Named,
    Blank,
}

// What an object is: its IRI, label or text stands beside it, and so does the tag or the datatype of a text.
#[derive(Clone, Copy, PartialEq, Eq, Debug)]
pub enum Term {
    Named,
    Blank,
    Plain,
    Tagged,
    Typed,
}

impl Node {
    // A blank node, or a named one.
    pub fn of(blank: bool) -> Self
        ensures { result ≡ node_for blank }
    {
        if blank { Node::Blank } else { Node::Named }
    }
}

// A node as an object.
impl From<Node> for Term {
    ghost from_gives = { λ node term. term ≡ as_term node };

    #[tactic(auto, unfolding(crate::specs::Terms::as_term))]
    fn from(node: Node) -> Self {
        match node {
            Node::Named => Term::Named,
            Node::Blank => Term::Blank,
        }
    }
}

// The rdf namespace.
pub const RDF: [u8; 43] = *b"http://www.w3.org/1999/02/22-rdf-syntax-ns#";

// The list with no members.
pub const RDF_NIL: [u8; 46] = *b"http://www.w3.org/1999/02/22-rdf-syntax-ns#nil";

// The datatype of XML text.
pub const RDF_XML_LITERAL: [u8; 53] = *b"http://www.w3.org/1999/02/22-rdf-syntax-ns#XMLLiteral";

// An IRI.
pub fn iri(out: &mut [u8], at: usize, on: bool, front: &[u8], back: &[u8]) -> usize
    ensures { Put on out.old out.new at result (write_iri (front.now ++ back.now)) }
{
    let to = writer::byte(out, at, on, b'<');
    let to = writer::iriref::write(out, to, on, front);
    let to = writer::iriref::write(out, to, on, back);
    writer::byte(out, to, on, b'>')
}

// A subject.
pub fn subject(out: &mut [u8], at: usize, on: bool, node: Node, s: &[u8]) -> usize
    ensures { Put on out.old out.new at result (write_subject (subject_of node s.now)) }
{
    match node {
        Node::Named => iri(out, at, on, s, b""),
        Node::Blank => label(out, at, on, s, b""),
    }
}

// An object.
pub fn object(
    out: &mut [u8],
    at: usize,
    on: bool,
    term: Term,
    front: &[u8],
    back: &[u8],
    extra: &[u8],
) -> usize
    ensures { Put on out.old out.new at result (write_term (term_of term (front.now ++ back.now) extra.now)) }
{
    match term {
        Term::Named => iri(out, at, on, front, back),
        Term::Blank => label(out, at, on, front, back),
        Term::Plain => text(out, at, on, front, back),
        Term::Tagged => tagged(out, at, on, front, back, extra),
        Term::Typed => typed(out, at, on, front, back, extra),
    }
}

// A line: subject, predicate, object.
pub fn line(
    out: &mut [u8],
    at: usize,
    on: bool,
    node: Node,
    s: &[u8],
    space: &[u8],
    name: &[u8],
    term: Term,
    front: &[u8],
    back: &[u8],
    extra: &[u8],
) -> usize
    ensures { Put on out.old out.new at result (line (triple (subject_of node s.now) (space.now ++ name.now) (term_of term (front.now ++ back.now) extra.now))) }
{
    let to = subject(out, at, on, node, s);
    let to = writer::byte(out, to, on, b' ');
    let to = iri(out, to, on, space, name);
    let to = writer::byte(out, to, on, b' ');
    let to = object(out, to, on, term, front, back, extra);
    writer::bytes(out, to, on, b" .\n")
}

// The same behind what is written so far: the tail of `out` is lent on for it.
pub fn line_behind(
    out: &mut [u8],
    at: usize,
    on: bool,
    node: Node,
    s: &[u8],
    space: &[u8],
    name: &[u8],
    term: Term,
    front: &[u8],
    back: &[u8],
    extra: &[u8],
) -> usize
    ensures { Put on out.old out.new at result (line (triple (subject_of node s.now) (space.now ++ name.now) (term_of term (front.now ++ back.now) extra.now))) }
{
    if out.len() < at {
        return line(out, at, on, node, s, space, name, term, front, back, extra);
    }
    let n = line(
        &mut out[at..],
        0,
        on,
        node,
        s,
        space,
        name,
        term,
        front,
        back,
        extra,
    );
    writer::counted(at, n)
}

// A line whose predicate is a name of the rdf namespace.
pub fn rdf_line(
    out: &mut [u8],
    at: usize,
    on: bool,
    node: Node,
    s: &[u8],
    name: &[u8],
    term: Term,
    front: &[u8],
    back: &[u8],
    extra: &[u8],
) -> usize
    ensures { Put on out.old out.new at result (line (triple (subject_of node s.now) (in_rdf name.now) (term_of term (front.now ++ back.now) extra.now))) }
{
    line(out, at, on, node, s, &RDF, name, term, front, back, extra)
}

// The four lines that a statement's rdf:ID adds: type, subject, predicate, object.
fn reification(
    out: &mut [u8],
    at: usize,
    on: bool,
    id: &[u8],
    node: Node,
    s: &[u8],
    space: &[u8],
    name: &[u8],
    term: Term,
    front: &[u8],
    back: &[u8],
    extra: &[u8],
) -> usize
    ensures { Put on out.old out.new at result (write (reification (some id.now) (subject_of node s.now) (space.now ++ name.now) (term_of term (front.now ++ back.now) extra.now))) }
{
    let n = Node::Named;
    let to = rdf_line(
        out,
        at,
        on,
        n,
        id,
        b"type",
        Term::Named,
        &RDF,
        b"Statement",
        b"",
    );
    let to = rdf_line(
        out,
        to,
        on,
        n,
        id,
        b"subject",
        Term::from(node),
        s,
        b"",
        b"",
    );
    let to = rdf_line(
        out,
        to,
        on,
        n,
        id,
        b"predicate",
        Term::Named,
        space,
        name,
        b"",
    );
    rdf_line(out, to, on, n, id, b"object", term, front, back, extra)
}

// A statement: where it has an rdf:ID, the four lines, and then its own.
pub fn statement(
    out: &mut [u8],
    at: usize,
    on: bool,
    id: Option<&[u8]>,
    node: Node,
    s: &[u8],
    space: &[u8],
    name: &[u8],
    term: Term,
    front: &[u8],
    back: &[u8],
    extra: &[u8],
) -> usize
    ensures { Put on out.old out.new at result (write (statement (property_of (is_some id.entry) (text_of id.entry) (subject_of node s.now) (space.now ++ name.now)) (term_of term (front.now ++ back.now) extra.now))) }
{
    match id {
        None => line(out, at, on, node, s, space, name, term, front, back, extra),
        Some(own) => {
            let to = reification(
                out, at, on, own, node, s, space, name, term, front, back, extra,
            );
            line_behind(out, to, on, node, s, space, name, term, front, back, extra)
        }
    }
}

// The two lines of a list's cell: its member, and the list of the others.
pub fn cell(
    out: &mut [u8],
    at: usize,
    on: bool,
    label: &[u8],
    first: Node,
    member: &[u8],
    rest: Node,
    others: &[u8],
) -> usize
    ensures { Put on out.old out.new at result (write (cell_of label.now (subject_of first member.now) (subject_of rest others.now))) }
{
    let n = Node::Blank;
    let to = rdf_line(
        out,
        at,
        on,
        n,
        label,
        b"first",
        Term::from(first),
        member,
        b"",
        b"",
    );
    rdf_line(
        out,
        to,
        on,
        n,
        label,
        b"rest",
        Term::from(rest),
        others,
        b"",
        b"",
    )
}

fn label(out: &mut [u8], at: usize, on: bool, front: &[u8], back: &[u8]) -> usize
    ensures { Put on out.old out.new at result (write_subject (blank (front.now ++ back.now))) }
{
    let to = writer::bytes(out, at, on, b"_:");
    let to = writer::bytes(out, to, on, front);
    writer::bytes(out, to, on, back)
}

fn text(out: &mut [u8], at: usize, on: bool, front: &[u8], back: &[u8]) -> usize
    ensures { Put on out.old out.new at result (quoted (front.now ++ back.now)) }
{
    let to = writer::byte(out, at, on, b'"');
    let to = writer::quoted::write(out, to, on, front);
    let to = writer::quoted::write(out, to, on, back);
    writer::byte(out, to, on, b'"')
}

fn tagged(out: &mut [u8], at: usize, on: bool, front: &[u8], back: &[u8], tag: &[u8]) -> usize
    ensures { Put on out.old out.new at result (write_term (tagged (front.now ++ back.now) tag.now)) }
{
    let to = text(out, at, on, front, back);
    let to = writer::byte(out, to, on, b'@');
    writer::bytes(out, to, on, tag)
}

fn typed(out: &mut [u8], at: usize, on: bool, front: &[u8], back: &[u8], datatype: &[u8]) -> usize
    ensures { Put on out.old out.new at result (write_term (typed (front.now ++ back.now) datatype.now)) }
{
    let to = text(out, at, on, front, back);
    let to = writer::bytes(out, to, on, b"^^");
    iri(out, to, on, datatype, b"")
}
