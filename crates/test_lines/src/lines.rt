// Each kind of term with every byte from 0 to 127 that needs an escape, measured first and then written; and the bounds of room and counts.
use ntriples::{Node, Term};
use std::io::Stdout;

pub fn try_all(stdout: Stdout) {
    names(stdout);
    texts(stdout);
    marked_texts(stdout);
    rows(stdout);
    xml(stdout);
    bounds(stdout);
    most(stdout);
}

// An output that takes no more loses what is printed, and the program goes on.
fn say(stdout: Stdout, s: &[u8]) {
    let _ = stdout.write_all(s);
}

// What was written, if it was measured as written.
fn show(stdout: Stdout, out: &[u8], measured: usize, written: usize) {
    if measured != written {
        say(stdout, b"not as measured\n");
        return;
    }
    if out.len() < written {
        say(stdout, b"no room\n");
        return;
    }
    say(stdout, &out[..written]);
}

fn line(
    stdout: Stdout,
    node: Node,
    s: &[u8],
    name: &[u8],
    term: Term,
    front: &[u8],
    back: &[u8],
    extra: &[u8],
) {
    let mut out = [0u8; 2048];
    let e = b"http://e/";
    let n = ntriples::line(
        &mut out, 0, false, node, s, e, name, term, front, back, extra,
    );
    let m = ntriples::line(
        &mut out, 0, true, node, s, e, name, term, front, back, extra,
    );
    show(stdout, &out, n, m);
}

fn statement(stdout: Stdout, id: Option<&[u8]>, term: Term, front: &[u8], extra: &[u8]) {
    let mut out = [0u8; 2048];
    let b = Node::Blank;
    let r = ntriples::RDF;
    let n = ntriples::statement(
        &mut out, 0, false, id, b, b"s", &r, b"value", term, front, b"", extra,
    );
    let m = ntriples::statement(
        &mut out, 0, true, id, b, b"s", &r, b"value", term, front, b"", extra,
    );
    show(stdout, &out, n, m);
}

fn cell(stdout: Stdout, rest: Node, others: &[u8]) {
    let mut out = [0u8; 2048];
    let f = Node::Named;
    let n = ntriples::cell(
        &mut out,
        0,
        false,
        b"riog00000001",
        f,
        b"http://e/m",
        rest,
        others,
    );
    let m = ntriples::cell(
        &mut out,
        0,
        true,
        b"riog00000001",
        f,
        b"http://e/m",
        rest,
        others,
    );
    show(stdout, &out, n, m);
}

fn tag(out: &mut [u8], on: bool) -> usize {
    let to = xmltext::open_tag(out, 0, on, b"e:a");
    let to = xmltext::attribute(out, to, on, b"xmlns:e", b"http://e/");
    let to = xmltext::attribute(out, to, on, b"b", b"&<>\"'\t\n\r");
    let to = xmltext::close_tag(out, to, on);
    let to = xmltext::text(out, to, on, b"a&b<c>d\"e'f");
    xmltext::end_tag(out, to, on, b"e:a")
}

fn names(stdout: Stdout) {
    let n = Node::Named;
    let marks = b"a<b>c\"d{e}f|g^h`i\\j";
    line(
        stdout,
        n,
        b"http://e/s",
        b"p",
        Term::Named,
        b"\x00\x01\x02\x03\x04\x05\x06\x07\x08\x09\x0a\x0b\x0c\x0d\x0e\x0f\x10\x11\x12\x13\x14\x15\x16\x17\x18\x19\x1a\x1b\x1c\x1d\x1e\x1f\x20",
        marks,
        b"",
    );
    line(stdout, n, marks, b"p q", Term::Named, b"", b"", b"");
}

fn texts(stdout: Stdout) {
    let b = Node::Blank;
    line(stdout, b, b"s", b"p", Term::Blank, b"o", b"1", b"");
    line(
        stdout,
        b,
        b"s",
        b"p",
        Term::Plain,
        b"\"\\\n\r",
        b"plain",
        b"",
    );
    line(
        stdout,
        b,
        b"s",
        b"p",
        Term::Plain,
        b"",
        b"a\"b\\c\nd\re",
        b"",
    );
}

fn marked_texts(stdout: Stdout) {
    let b = Node::Blank;
    line(stdout, b, b"s", b"p", Term::Tagged, b"chat", b"", b"fr-be");
    line(
        stdout,
        b,
        b"s",
        b"p",
        Term::Typed,
        b"1",
        b"2",
        b"http://e/t t",
    );
}

fn rows(stdout: Stdout) {
    statement(stdout, None, Term::Plain, b"v", b"");
    statement(
        stdout,
        Some(b"http://e/#i"),
        Term::Typed,
        b"<a></a>",
        &ntriples::RDF_XML_LITERAL,
    );
    cell(stdout, Node::Named, &ntriples::RDF_NIL);
    cell(stdout, Node::Blank, b"riog00000002");
}

fn xml(stdout: Stdout) {
    let mut out = [0u8; 256];
    let n = tag(&mut out, false);
    let m = tag(&mut out, true);
    show(stdout, &out, n, m);
    say(stdout, b"\n");
}

// Room for all, and one short.
fn bounds(stdout: Stdout) {
    let mut exact = *b"......";
    let n = writer::quoted::write(&mut exact, 1, true, b"a\"bc");
    say(stdout, &exact);
    let mut short = *b".....";
    let m = writer::quoted::write(&mut short, 1, true, b"a\"bc");
    say(stdout, &short);
    if n == m {
        say(stdout, b" as counted");
    }
}

// A count stays at its largest.
fn most(stdout: Stdout) {
    if writer::bytes(&mut [0u8; 6], writer::MOST - 1, true, b"abc") == writer::MOST {
        say(stdout, b" most");
    }
    say(stdout, b"\n");
}
