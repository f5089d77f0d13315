// The lines that the end tag of a property writes, counted always and stored where `on`: crate writer says how.
// `f` is the property's frame and `n` that of the node around it, which is its subject.
ghost use Rattle.std.specs.Prelude.{◌≡◌, true, List, [], ◌++◌, ℕ, ◌+◌, ◌-◌, ◌*◌, ◌≤◌, ◌<◌, eqb, length};
ghost use Rattle.spec.specs.Limits.{most_labels};
ghost use Rattle.spec.specs.NTriples.{node, label, write};
ghost use Rattle.spec.specs.Productions.{statement};
ghost use Rattle.spec.specs.EndTag.{cells, head_cell};
ghost use Rattle.copy.specs.Copy.{part};
ghost use Rattle.state_words.specs.Parts.{DATATYPE, TAIL, END, TYPED, PENDING};
ghost use Rattle.state_words.specs.Words.{pick};
ghost use Rattle.state.specs.Meaning.{at, has, count, span, children_of, subject_of, property_of};
ghost use Rattle.state_stack.specs.NodeLaws.{child_node};
ghost use Rattle.writer.specs.Put.{Put};
ghost use Rattle.ntriples.specs.Terms.{term_of, cell_of};
ghost use Rattle.end_tag.specs.Object.{property_lines, literal_lines, LiteralFor, TermFor};
ghost use Rattle.end_tag.specs.Room.{object_room, StatementFits};
ghost use Rattle.end_tag.specs.Cells.{nil, list_at, Listed};

use copy::words::wide;
use label::{BlankNodeId, BlankNodeIdGenerator};
use ntriples::{Node, Term};
use state_stack::nodes::Child;
use state_words::Frame;
use writer::{iriref, quoted};

// The longest language tag for which there may surely be room.
const MOST_TAG: usize = 65_536;

// The most bytes of a line beside what is written of its IRIs, texts and tags: brackets, quotes, spaces, the end.
const MOST_MARKS: usize = 15;

// What the four lines of an rdf:ID have at most beside the rdf:ID and another line's bytes: rdf names and marks.
const MOST_RDF: usize = 1_533;

// The statement of a default property: its object so far, or the empty literal. `tag` is the language in force, with no byte where there
// is none.
pub fn property_lines<'a>(
    out: &mut [u8],
    on: bool,
    n: Frame,
    f: Frame,
    tag: &'a [u8],
    work: &'a [u8],
) -> usize
    ensures { Put on out.old out.new 0 result (write (property_lines n f tag.now work.now)) }
{
    let has = f.has;
    let term = object_term(has[Frame::PENDING], has[Frame::TYPED], tag);
    let text = object_text(work, f);
    let extra = type_or_tag(work, f, tag);
    statement(out, 0, on, n, f, work, term, text, extra)
}

// Is there surely room for its lines?
pub fn property_fits(room: usize, n: Frame, f: Frame, tag: &[u8]) -> bool
    ensures { result ≡ true → (w : List ℕ) → length (write (property_lines n f tag.now w)) ≤ room }
{
    let has = f.has;
    if tag.len() > MOST_TAG {
        return false;
    }
    let text = object_room(has[Frame::PENDING], part_size(f, Frame::TAIL));
    statement_fits(
        room,
        n,
        f,
        text + iriref::MOST * part_size(f, Frame::DATATYPE) + tag.len(),
    )
}

// The statement of a Literal property: its XML text.
pub fn literal_lines(out: &mut [u8], on: bool, n: Frame, f: Frame, work: &[u8]) -> usize
    ensures { Put on out.old out.new 0 result (write (literal_lines n f work.now)) }
{
    let text = part_of(work, f, Frame::TAIL);
    statement(
        out,
        0,
        on,
        n,
        f,
        work,
        Term::Typed,
        text,
        &ntriples::RDF_XML_LITERAL,
    )
}

// Is there surely room for its lines?
pub fn literal_fits(room: usize, n: Frame, f: Frame) -> bool
    ensures { result ≡ true → (w : List ℕ) → length (write (literal_lines n f w)) ≤ room }
{
    statement_fits(
        room,
        n,
        f,
        quoted::MOST * part_size(f, Frame::TAIL) + iriref::MOST * ntriples::RDF_XML_LITERAL.len(),
    )
}

// How many bytes its XML text has.
pub fn tail_size(f: Frame, work: &[u8]) -> usize
    ensures { result ≡ length (span work.now (at f TAIL) (at f END)) }
{
    let text = part_of(work, f, Frame::TAIL);
    text.len()
}

// The cells of a Collection and then its statement; `labels` were generated before.
pub fn collection_lines(
    out: &mut [u8],
    on: bool,
    n: Frame,
    f: Frame,
    labels: u64,
    work: &[u8],
) -> usize
    requires { Listed f work.now labels }
    ensures { Put on out.old out.new 0 result (write (cells labels nil (children_of work.now (count f) (at f END)) ++ statement (property_of f work.now (subject_of n work.now)) (node (head_cell labels nil (children_of work.now (count f) (at f END)))))) }
{
    let has = f.has;
    let children = has[Frame::COUNT];
    let to = cells(out, on, f, labels, work);
    if children == 0 {
        return statement(
            out,
            to,
            on,
            n,
            f,
            work,
            Term::Named,
            &ntriples::RDF_NIL,
            b"",
        );
    }
    let head = label_of(labels + children as u64);
    let id = head.id;
    statement(out, to, on, n, f, work, Term::Blank, &id, b"")
}

// Children last to first, each takes the next label.
fn cells(out: &mut [u8], on: bool, f: Frame, labels: u64, work: &[u8]) -> usize
    requires { Listed f work.now labels }
    ensures { Put on out.old out.new 0 result (write (cells labels nil (children_of work.now (count f) (at f END)))) }
{
    let at = f.at;
    let has = f.has;
    let mut to: usize = 0;
    let mut e = wide(at[Frame::END]);
    let mut n = labels;
    for left in (0..has[Frame::COUNT]).rev() {
        let c = state_stack::nodes::child_at(work, e);
        to = cell(out, to, on, c, labels, n, work);
        e = c.at;
        n += 1;
    }
    to
}

// The cell of child `c`, where the labels of the list's cells follow `first`, and `n` were generated before this one.
fn cell(out: &mut [u8], at: usize, on: bool, c: Child, first: u64, n: u64, work: &[u8]) -> usize
    requires { (first ≤ n) × (n < most_labels) }
    ensures { Put on out.old out.new at result (write (cell_of (label (n + 1)) (child_node c work.now) (list_at first n))) }
{
    let own = label_of(n + 1);
    let id = own.id;
    let node = Node::of(c.blank);
    let member = copy::piece(work, c.at, c.len);
    if n == first {
        return ntriples::cell(
            out,
            at,
            on,
            &id,
            node,
            member,
            Node::Named,
            &ntriples::RDF_NIL,
        );
    }
    let last = label_of(n);
    let others = last.id;
    ntriples::cell(out, at, on, &id, node, member, Node::Blank, &others)
}

// The label that `n` counts to.
fn label_of(n: u64) -> BlankNodeId
    requires { (0 < n) × (n ≤ most_labels) }
    ensures { result.id ≡ label n }
{
    let mut generator = BlankNodeIdGenerator { counter: n - 1 };
    generator.generate().unwrap()
}

// The statement of property `f`, whose subject is the node `n` around it.
fn statement(
    out: &mut [u8],
    at: usize,
    on: bool,
    n: Frame,
    f: Frame,
    work: &[u8],
    term: Term,
    front: &[u8],
    extra: &[u8],
) -> usize
    ensures { Put on out.old out.new at result (write (statement (property_of f work.now (subject_of n work.now)) (term_of term front.now extra.now))) }
{
    let marks = n.has;
    let has = f.has;
    let node = Node::of(marks[Frame::BLANK] != 0);
    let s = part_of(work, n, Frame::MAIN);
    let iri = part_of(work, f, Frame::MAIN);
    let own = part_of(work, f, Frame::ID);
    let id = (has[Frame::IDENTIFIED] != 0).then_some(own);
    ntriples::statement(out, at, on, id, node, s, iri, b"", term, front, b"", extra)
}

// Is there surely room for it, where its object takes at most `object` bytes beside its marks? An rdf:ID adds four lines.
fn statement_fits(room: usize, n: Frame, f: Frame, object: usize) -> bool
    requires { object < 256 * 4294967296 }
    ensures { result ≡ true → StatementFits n f object room }
{
    let has = f.has;
    let line = iriref::MOST * part_size(n, Frame::MAIN)
        + iriref::MOST * part_size(f, Frame::MAIN)
        + object
        + MOST_MARKS;
    if has[Frame::IDENTIFIED] == 0 {
        return line <= room;
    }
    2 * line + 4 * (iriref::MOST * part_size(f, Frame::ID)) + MOST_RDF <= room
}

// The most bytes that an object of `size` bytes takes beside its marks: an IRI, or else a label or a text.
fn object_room(what: u32, size: usize) -> usize
    requires { size < 4294967296 }
    ensures { (result ≡ object_room what size) × (result ≤ 6 * size) }
{
    if what == Frame::NAMED_NODE {
        return iriref::MOST * size;
    }
    quoted::MOST * size
}

// What the object of a default property is: none means the empty literal.
fn object_term(what: u32, datatype: u32, tag: &[u8]) -> Term
    ensures { TermFor what datatype tag.now result }
{
    if what == Frame::NAMED_NODE {
        return Term::Named;
    }
    if what == Frame::BLANK_NODE {
        return Term::Blank;
    }
    new_literal(datatype, tag)
}

// Datatype beats language.
fn new_literal(datatype: u32, tag: &[u8]) -> Term
    ensures { LiteralFor datatype tag.now result }
{
    if datatype != 0 {
        return Term::Typed;
    }
    if tag.len() == 0 {
        return Term::Plain;
    }
    Term::Tagged
}

// The bytes of the object so far.
fn object_text(work: &[u8], f: Frame) -> &[u8]
    ensures { result.now ≡ pick (eqb (has f PENDING) 0) [] (span work.now (at f TAIL) (at f END)) }
{
    let has = f.has;
    if has[Frame::PENDING] == 0 {
        return copy::piece(work, 0, 0);
    }
    part_of(work, f, Frame::TAIL)
}

// What stands beside a literal's text: its datatype, or else the language in force.
fn type_or_tag<'a>(work: &'a [u8], f: Frame, tag: &'a [u8]) -> &'a [u8]
    ensures { result.now ≡ pick (eqb (has f TYPED) 0) tag.now (span work.now (at f DATATYPE) (at f TAIL)) }
{
    let has = f.has;
    if has[Frame::TYPED] == 0 {
        return tag;
    }
    part_of(work, f, Frame::DATATYPE)
}

// Part `k` of a frame.
fn part_of(work: &[u8], f: Frame, k: usize) -> &[u8]
    requires { k < END }
    ensures { result.now ≡ span work.now (at f k) (at f (k + 1)) }
{
    let at = f.at;
    let from = wide(at[k]);
    let to = wide(at[k + 1]);
    if to < from {
        return copy::piece(work, from, 0);
    }
    copy::piece(work, from, to - from)
}

// How many bytes it has.
fn part_size(f: Frame, k: usize) -> usize
    requires { k < END }
    ensures { (result ≡ at f (k + 1) - at f k) × (result < 4294967296) }
{
    let at = f.at;
    let from = wide(at[k]);
    let to = wide(at[k + 1]);
    if to < from {
        return 0;
    }
    to - from
}
