// Namespaces of a small start tag, printed: what prefixes are bound to, which bindings are legal, what attributes are, and which repeat.
use crate::printing::{answer, number, text};
use start_names::{Class, Found};
use state_words::Frame;
use std::io::Stdout;

// xmlns, xmlns:a, xmlns:b, a:x, b:x, x, q:x; a and b are bound to the same.
const TAG: [u8; 60] = *b"xmlnshttp://d/xmlns:ahttp://a/xmlns:bhttp://a/a:x1b:x2x3q:x4";

const SPANS: [u32; 28] = [
    0, 5, 0, 9, 14, 7, 6, 9, 30, 7, 6, 9, 46, 3, 2, 1, 50, 3, 2, 1, 54, 1, 0, 1, 56, 3, 2, 1,
];

// The open elements bind a, then q, then q again.
const WORK: [u8; 34] = *b"ahttp://old/qhttp://q/qhttp://new/";

const ROWS: [u32; Frame::PLACES] = [0, 1, 11, 12, 1, 9, 22, 1, 11];

// A declaration, and one name twice.
const TWICE: [u8; 14] = *b"xmlns:cdcdxcdx";

const TWICE_SPANS: [u32; 12] = [0, 7, 6, 1, 8, 3, 0, 0, 11, 3, 0, 0];

pub fn try_all(out: Stdout) {
    lookups(out);
    legality(out);
    elements(out);
    tag(out, 7, 3);
    tag(out, 4, 0);
    tag(out, 7, 0);
    joints(out);
    number(
        out,
        b"declared",
        start_names::count_declared(&TAG, &SPANS, 7),
    );
    answer(out, b"all legal", start_names::all_legal(&TAG, &SPANS, 7));
    answer(
        out,
        b"repeated as written",
        start_names::repeated_written(&TAG, &SPANS, 7),
    );
    answer(
        out,
        b"repeated as written",
        start_names::repeated_written(&TWICE, &TWICE_SPANS, 3),
    );
}

fn write_found(out: Stdout, found: Found) {
    match found {
        Found::Unknown => text(out, b"unknown"),
        Found::Xml => text(out, &start_names::XML),
        Found::Own(at, n) => text(out, copy::piece(&TAG, at, n)),
        Found::Held(at, n) => text(out, copy::piece(&WORK, at, n)),
    }
}

fn lookup(out: Stdout, prefix: &[u8], k: usize, n: usize) {
    text(out, b"prefix ");
    text(out, prefix);
    text(out, b": ");
    write_found(
        out,
        start_names::lookup(prefix, &TAG, &SPANS, k, &WORK, &ROWS, n),
    );
    text(out, b"\n");
}

fn legal(out: Stdout, prefix: &[u8], namespace: &[u8]) {
    text(out, b"legal ");
    text(out, prefix);
    text(out, b" = ");
    answer(out, namespace, start_names::is_legal(prefix, namespace));
}

fn element(out: Stdout, name: &[u8], c: usize, k: usize) {
    text(out, b"element ");
    text(out, name);
    text(out, b": ");
    write_found(
        out,
        start_names::element(name, c, &TAG, &SPANS, k, &WORK, &ROWS, 3),
    );
    text(out, b" ");
    text(out, start_names::back_of(name, c));
    text(out, b"\n");
}

fn write_class(out: Stdout, class: Class) {
    match class {
        Class::Declaration => text(out, b"a declaration"),
        Class::Unknown => text(out, b"of an unknown prefix"),
        Class::Unprefixed => text(out, b"without a prefix"),
        Class::Xml => text(out, &start_names::XML),
        Class::Own(at, n) => text(out, copy::piece(&TAG, at, n)),
        Class::Held(at, n) => text(out, copy::piece(&WORK, at, n)),
    }
}

fn attribute(out: Stdout, classes: &[usize], j: usize) {
    text(out, b"attribute ");
    text(out, start_names::name_of(&TAG, &SPANS, j));
    text(out, b": ");
    write_class(out, Class::load(classes, j));
    text(out, b"\n");
}

// The first k attributes, the first n rows.
fn tag(out: Stdout, k: usize, n: usize) {
    let mut classes = [0usize; 21];
    start_names::classify(&TAG, &SPANS, k, &WORK, &ROWS, n, &mut classes);
    for j in 0..k {
        attribute(out, &classes, j);
    }
    answer(
        out,
        b"repeated",
        start_names::repeated_expanded(&TAG, &SPANS, k, &WORK, &classes),
    );
}

fn joined(out: Stdout, a: &[u8], b: &[u8], c: &[u8], d: &[u8]) {
    answer(out, b"joined", start_names::same_joined(a, b, c, d));
}

fn lookups(out: Stdout) {
    lookup(out, b"", 7, 3);
    lookup(out, b"a", 7, 3);
    lookup(out, b"a", 0, 3);
    lookup(out, b"q", 7, 3);
    lookup(out, b"q", 7, 2);
    lookup(out, b"q", 7, 1);
    lookup(out, b"xml", 7, 3);
    lookup(out, b"xmlns", 7, 3);
    lookup(out, b"", 0, 3);
}

fn legality(out: Stdout) {
    legal(out, b"", b"");
    legal(out, b"p", b"");
    legal(out, b"p", b"http://p/");
    legal(out, b"xml", b"http://p/");
    legal(out, b"xml", &start_names::XML);
    legal(out, b"p", &start_names::XML);
    legal(out, b"", &start_names::XMLNS);
    legal(out, b"xmlns", b"http://p/");
}

fn elements(out: Stdout) {
    element(out, b"e", 0, 7);
    element(out, b"b:e", 2, 7);
    element(out, b"q:e", 2, 7);
    element(out, b"z:e", 2, 7);
    element(out, b"e", 0, 0);
}

fn joints(out: Stdout) {
    joined(out, b"http://a/", b"x", b"http://a/", b"x");
    joined(out, b"http://a/", b"bx", b"http://a/b", b"x");
    joined(out, b"http://a/b", b"x", b"http://a/", b"bx");
    joined(out, b"http://a/", b"x", b"http://b/", b"x");
    joined(out, b"", b"x", b"http://a/", b"x");
}
