// The lines of a start tag: its property attributes, its rdf:type, and the type that a node element's name is.
// Attributes are read where the decoded tag has them; `classes` and `roles` say what each is (crates start_names and start_attributes).
#![tactic(auto)]

ghost use Rattle.std.specs.Prelude.{◌≡◌, ◌++◌, eqb, get_or, is_some};
ghost use Rattle.std.proofs.Math.Option.{none};
ghost use Rattle.spec.specs.NTriples.{triple, line, write};
ghost use Rattle.spec.specs.StartTag.{property, role_number};
ghost use Rattle.spec.specs.Productions.{literal_of, attribute_lines, type_line};
ghost use Rattle.writer.specs.Put.{Put};
ghost use Rattle.ntriples.specs.Terms.{subject_of, text_of, id_of as given};
ghost use Rattle.state.specs.Language.{language_of};
ghost use Rattle.start_names.specs.Tag.{value_at};
ghost use Rattle.start_attributes.specs.Properties.{local_at, properties_from};
ghost use Rattle.start_lines.specs.Lines.{literal_kind};

use ntriples::{Node, Term};
use start_attributes::roles::Role;
use start_names::{Class, XML};

// The property attributes of the first k, a line each in written order; they take the language in force, whose tag has no bytes where there is none.
pub fn emit_property_attrs<'a>(
    out: &mut [u8],
    at: usize,
    on: bool,
    node: Node,
    subject: &[u8],
    language: &[u8],
    scratch: &'a [u8],
    spans: &[u32],
    k: usize,
    work: &'a [u8],
    classes: &[usize],
    roles: &[u8],
) -> usize
    ensures { Put on out.old out.new at result (write (attribute_lines (subject_of node subject.now) (language_of language.now) (properties_from scratch.now spans.now work.now classes.now roles.now 0 k))) }
{
    let mut to = at;
    for j in 0..k {
        to = emit_property_attr(
            out, to, on, node, subject, language, scratch, spans, j, work, classes, roles,
        );
    }
    to
}

// The lines of a start tag about a subject: its property attributes, then its rdf:type, where there is one.
pub fn tag_lines<'a>(
    out: &mut [u8],
    at: usize,
    on: bool,
    node: Node,
    subject: &[u8],
    language: &[u8],
    scratch: &'a [u8],
    spans: &[u32],
    k: usize,
    work: &'a [u8],
    classes: &[usize],
    roles: &[u8],
    kind: Option<&[u8]>,
) -> usize
    ensures { Put on out.old out.new at result (write (attribute_lines (subject_of node subject.now) (language_of language.now) (properties_from scratch.now spans.now work.now classes.now roles.now 0 k) ++ type_line (subject_of node subject.now) (given (is_some kind.entry) (text_of kind.entry)))) }
{
    let to = emit_property_attrs(
        out, at, on, node, subject, language, scratch, spans, k, work, classes, roles,
    );
    type_line(out, to, on, node, subject, kind)
}

// The lines of a node element: those of its start tag, then the type that its name is, where it is one: rdf:Description is none.
pub fn node_lines<'a>(
    out: &mut [u8],
    at: usize,
    on: bool,
    node: Node,
    subject: &[u8],
    language: &[u8],
    scratch: &'a [u8],
    spans: &[u32],
    k: usize,
    work: &'a [u8],
    classes: &[usize],
    roles: &[u8],
    kind: Option<&[u8]>,
    element: Option<&[u8]>,
) -> usize
    ensures { Put on out.old out.new at result (write ((attribute_lines (subject_of node subject.now) (language_of language.now) (properties_from scratch.now spans.now work.now classes.now roles.now 0 k) ++ type_line (subject_of node subject.now) (given (is_some kind.entry) (text_of kind.entry))) ++ type_line (subject_of node subject.now) (given (is_some element.entry) (text_of element.entry)))) }
{
    let to = tag_lines(
        out, at, on, node, subject, language, scratch, spans, k, work, classes, roles, kind,
    );
    type_line(out, to, on, node, subject, element)
}

// An rdf:type line, where there is a type.
fn type_line(
    out: &mut [u8],
    at: usize,
    on: bool,
    node: Node,
    subject: &[u8],
    kind: Option<&[u8]>,
) -> usize
    ensures { Put on out.old out.new at result (write (type_line (subject_of node subject.now) (given (is_some kind.entry) (text_of kind.entry)))) }
{
    match kind {
        None => at,
        Some(iri) => ntriples::rdf_line(
            out,
            at,
            on,
            node,
            subject,
            b"type",
            Term::Named,
            iri,
            b"",
            b"",
        ),
    }
}

// The line of attribute j, where it is a property.
fn emit_property_attr<'a>(
    out: &mut [u8],
    at: usize,
    on: bool,
    node: Node,
    subject: &[u8],
    language: &[u8],
    scratch: &'a [u8],
    spans: &[u32],
    j: usize,
    work: &'a [u8],
    classes: &[usize],
    roles: &[u8],
) -> usize
    ensures { Put on out.old out.new at result (write (attribute_lines (subject_of node subject.now) (language_of language.now) (properties_from scratch.now spans.now work.now classes.now roles.now j 1))) }
{
    if !is_property(roles, j) {
        return at;
    }
    let space = start_names::space_of(Class::load(classes, j), scratch, work, &XML);
    property_line(
        out, at, on, node, subject, space, language, scratch, spans, j,
    )
}

// The line of attribute j, whose namespace is `space`.
fn property_line(
    out: &mut [u8],
    at: usize,
    on: bool,
    node: Node,
    subject: &[u8],
    space: &[u8],
    language: &[u8],
    scratch: &[u8],
    spans: &[u32],
    j: usize,
) -> usize
    ensures { Put on out.old out.new at result (line (triple (subject_of node subject.now) (space.now ++ local_at scratch.now spans.now j) (literal_of none (language_of language.now) (value_at scratch.now spans.now j)))) }
{
    let local = start_names::local_of(scratch, spans, j);
    let value = start_names::value_of(scratch, spans, j);
    let term = literal_kind(language);
    ntriples::line_behind(
        out, at, on, node, subject, space, local, term, value, b"", language,
    )
}

// Is attribute j a property?
fn is_property(roles: &[u8], j: usize) -> bool
    ensures { result ≡ eqb (get_or roles.now j 0) (role_number property) }
{
    j < roles.len() && roles[j] == u8::from(Role::Property)
}

// A text, with a tag where there is one.
#[tactic(auto, unfolding(crate::specs::Lines::literal_kind))]
fn literal_kind(language: &[u8]) -> Term
    ensures { result ≡ literal_kind language.now }
{
    if language.is_empty() {
        return Term::Plain;
    }
    Term::Tagged
}
