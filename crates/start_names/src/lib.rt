// Namespaces of a start tag: its declarations, the namespaces of its names, and its repeated attributes.
#![tactic(auto)]

ghost use Rattle.std.specs.Prelude.{◌≡◌, true, [], ◌++◌, ◌+◌, ◌*◌, ◌<◌, ◌≤◌, length};
ghost use Rattle.spec.specs.Bytes.{ascii, after, same};
ghost use Rattle.spec.specs.Pyx.{attribute};
ghost use Rattle.spec.specs.Namespaces.{is_declaration, is_legal, all_legal, declared, namespace, repeats_written};
ghost use Rattle.copy.specs.Copy.{part};
ghost use Rattle.start_names.specs.Tag.{Word, start_at, size_at, value_size_at, name_at, value_at, attribute_at, attributes_of, colon_at, front_of, back_of};
ghost use Rattle.start_names.specs.Declarations.{binds_to, legal, bindings_in};
ghost use Rattle.state_words.specs.Words.{row_at};
ghost use Rattle.state.specs.Meaning.{binding_of};
ghost use Rattle.start_names.specs.Found.{found_bytes, scope, IsOwn, IsHeld, held_by, Names};
ghost use Rattle.start_names.specs.Pairs.{behind_in, pairs};
ghost use Rattle.start_names.specs.Repeats.{same_written};
ghost use Rattle.start_names.specs.Classes.{found_class, words_of, class_of, class_at, StoredClass, Says, Classifies, kind_of, same_keys, space_by, tail_at, Keyed};

use copy::words::wide;

// The namespace that `xml` is always bound to.
pub const XML: [u8; 36] = *b"http://www.w3.org/XML/1998/namespace";

// The namespace that no prefix may be bound to.
pub const XMLNS: [u8; 29] = *b"http://www.w3.org/2000/xmlns/";

// Where the namespace of a prefix was found: a part of the tag's decoded bytes, or of the work store, where it starts and how long it is.
// One enum of four: as an Option, each match would have the same arms, three of them inside another.
#[derive(Clone, Copy, PartialEq, Eq, Debug)]
pub enum Found {
    Unknown,
    Xml,
    Own(usize, usize),
    Held(usize, usize),
}

// What is known of an attribute's name: it declares a namespace, its prefix is unknown, it has none, or where its namespace was found.
#[derive(Clone, Copy, PartialEq, Eq, Debug)]
pub enum Class {
    Declaration,
    Unknown,
    Unprefixed,
    Xml,
    Own(usize, usize),
    Held(usize, usize),
}

// A class as it stands in a table of words.
#[derive(Clone, Copy, PartialEq, Eq, Debug)]
struct ClassWords {
    what: usize,
    at: usize,
    size: usize,
}

// The class of a name whose prefix has this namespace.
impl From<Found> for Class {
    ghost from_gives = { λ found class. class ≡ found_class found };

    fn from(found: Found) -> Self {
        match found {
            Found::Unknown => Class::Unknown,
            Found::Xml => Class::Xml,
            Found::Own(at, size) => Class::Own(at, size),
            Found::Held(at, size) => Class::Held(at, size),
        }
    }
}

impl From<ClassWords> for Class {
    ghost from_gives = { λ words class. class ≡ class_of words.what words.at words.size };

    #[tactic(auto, unfolding(crate::specs::Classes::class_of))]
    fn from(words: ClassWords) -> Self {
        match words.what {
            0 => Class::Declaration,
            1 => Class::Unknown,
            2 => Class::Unprefixed,
            3 => Class::Xml,
            4 => Class::Own(words.at, words.size),
            _ => Class::Held(words.at, words.size),
        }
    }
}

impl From<Class> for ClassWords {
    ghost from_gives = { λ class words. words ≡ words_of class };

    fn from(class: Class) -> Self {
        let (what, at, size) = match class {
            Class::Declaration => (0, 0, 0),
            Class::Unknown => (1, 0, 0),
            Class::Unprefixed => (2, 0, 0),
            Class::Xml => (3, 0, 0),
            Class::Own(at, size) => (4, at, size),
            Class::Held(at, size) => (5, at, size),
        };
        ClassWords { what, at, size }
    }
}

impl Class {
    // Words of a class.
    pub const WORDS: usize = 3;

    // Attributes on one element, xmlns included.
    pub const MOST: usize = 64;

    // Words of a table for all of them.
    pub const TABLE: usize = Self::MOST * Self::WORDS;

    // Class j of a table; `Unknown` where the table is too short.
    pub fn load(classes: &[usize], j: usize) -> Self
        ensures { result ≡ class_at classes.now j }
    {
        if classes.len() / Self::WORDS <= j {
            return Class::Unknown;
        }
        let from = j * Self::WORDS;
        Class::from(ClassWords {
            what: classes[from],
            at: classes[from + 1],
            size: classes[from + 2],
        })
    }

    // No Result: `StoredClass` says what the answer is.
    pub fn store(classes: &mut [usize], j: usize, class: Class) -> bool
        ensures { StoredClass classes.old j class classes.new result }
    {
        if classes.len() / Self::WORDS <= j {
            return false;
        }
        let from = j * Self::WORDS;
        let words = ClassWords::from(class);
        classes[from] = words.what;
        classes[from + 1] = words.at;
        classes[from + 2] = words.size;
        true
    }

    // What attributes of the class are compared by: 0 and 1 the name as written, 2 the expanded name. A number, as the keys of the definitions
    // have (specs/Repeats.antt, Key).
    pub fn kind(self) -> usize
        ensures { result ≡ kind_of self }
    {
        match self {
            Class::Declaration => 0,
            Class::Unknown => 1,
            Class::Unprefixed | Class::Xml | Class::Own(_, _) | Class::Held(_, _) => 2,
        }
    }

    // Have j and i surely one class, with its namespace at one place? Then their names differ in nothing but what stands behind the namespace.
    // The words are compared as they stand, with no branch and no class made; must-fail/one_length_one_namespace is of this test.
    fn same(classes: &[usize], j: usize, i: usize) -> bool
        ensures { result ≡ true → class_at classes.now j ≡ class_at classes.now i }
    {
        if classes.len() / Self::WORDS <= j {
            return false;
        }
        if classes.len() / Self::WORDS <= i {
            return false;
        }
        let a = j * Self::WORDS;
        let b = i * Self::WORDS;
        (classes[a] == classes[b])
            & ((classes[a + 1] == classes[b + 1]) & (classes[a + 2] == classes[b + 2]))
    }
}

// The name of attribute j as written, and its value.
pub fn name_of<'a, 'b>(scratch: &'a [u8], spans: &'b [u32], j: usize) -> &'a [u8]
    ensures { result.now ≡ name_at scratch.now spans.now j }
{
    let at = attribute_word(spans, j, 0);
    let n = attribute_word(spans, j, 1);
    copy::piece(scratch, at, n)
}

pub fn value_of<'a, 'b>(scratch: &'a [u8], spans: &'b [u32], j: usize) -> &'a [u8]
    ensures { result.now ≡ value_at scratch.now spans.now j }
{
    let at = attribute_word(spans, j, 0);
    let n = attribute_word(spans, j, 1);
    let v = attribute_word(spans, j, 3);
    copy::piece(scratch, at + n, v)
}

// What stands before a name's colon, and what stands behind it: c is the colon's place plus 1, or 0 where there is none, as the words of an
// attribute have it (no Option in a table of words: fixed memory).
pub fn front_of(name: &[u8], c: usize) -> &[u8]
    ensures { result.now ≡ front_of c name.now }
{
    if c == 0 {
        return &name[0..0];
    }
    copy::piece(name, 0, c - 1)
}

pub fn back_of(name: &[u8], c: usize) -> &[u8]
    ensures { result.now ≡ back_of c name.now }
{
    if name.len() < c {
        return &name[0..0];
    }
    &name[c..]
}

// The prefix and the local part of the name of attribute j.
pub fn prefix_of<'a, 'b>(scratch: &'a [u8], spans: &'b [u32], j: usize) -> &'a [u8]
    ensures { result.now ≡ front_of (colon_at spans.now j) (name_at scratch.now spans.now j) }
{
    front_of(name_of(scratch, spans, j), attribute_word(spans, j, 2))
}

pub fn local_of<'a, 'b>(scratch: &'a [u8], spans: &'b [u32], j: usize) -> &'a [u8]
    ensures { result.now ≡ back_of (colon_at spans.now j) (name_at scratch.now spans.now j) }
{
    back_of(name_of(scratch, spans, j), attribute_word(spans, j, 2))
}

// Does an attribute of this name declare a namespace?
pub fn is_declaration(name: &[u8]) -> bool
    ensures { result ≡ is_declaration (attribute name.now []) }
{
    if copy::equal(name, b"xmlns") {
        return true;
    }
    copy::begins(name, b"xmlns:")
}

// The prefix that a declaration of this name binds: none, empty here, for the default.
pub fn declared_prefix(name: &[u8]) -> &[u8]
    ensures { result.now ≡ after (ascii "xmlns:") name.now }
{
    back_of(name, 6)
}

// May the prefix, empty for the default, be bound to the namespace?
pub fn is_legal(prefix: &[u8], namespace: &[u8]) -> bool
    ensures { result ≡ is_legal (prefix.now, namespace.now) }
{
    if copy::equal(prefix, b"xml") {
        return copy::equal(namespace, &XML);
    }
    if copy::equal(prefix, b"xmlns") {
        return false;
    }
    if copy::equal(namespace, &XML) {
        return false;
    }
    if copy::equal(namespace, &XMLNS) {
        return false;
    }
    if prefix.len() == 0 {
        return true;
    }
    namespace.len() != 0
}

// Is each binding legal that the first k attributes declare?
pub fn all_legal(scratch: &[u8], spans: &[u32], k: usize) -> bool
    ensures { result ≡ all_legal (declared (attributes_of scratch.now spans.now k)) }
{
    for j in 0..k {
        if !legal_at(scratch, spans, j) {
            return false;
        }
    }
    true
}

// How many bindings the first k attributes declare.
pub fn count_declared(scratch: &[u8], spans: &[u32], k: usize) -> usize
    ensures { result ≡ length (declared (attributes_of scratch.now spans.now k)) }
{
    let mut n: usize = 0;
    for j in 0..k {
        n += declared_at(scratch, spans, j);
    }
    n
}

// The namespace of a prefix: the tag's own declarations in written order, then the open elements', innermost first.
pub fn lookup(
    prefix: &[u8],
    scratch: &[u8],
    spans: &[u32],
    k: usize,
    work: &[u8],
    bindings: &[u32],
    n: usize,
) -> Found
    ensures { found_bytes scratch.now work.now result ≡ namespace (scope scratch.now spans.now k work.now bindings.now n) prefix.now }
{
    if copy::equal(prefix, b"xml") {
        return Found::Xml;
    }
    let found = own(prefix, scratch, spans, k);
    match found {
        Found::Unknown => held(prefix, work, bindings, n),
        found => found,
    }
}

// The namespace of an element's name, known and not empty; else `Unknown`, and the refusal is 8. c is its colon's place plus 1, or 0.
pub fn element(
    name: &[u8],
    c: usize,
    scratch: &[u8],
    spans: &[u32],
    k: usize,
    work: &[u8],
    bindings: &[u32],
    n: usize,
) -> Found
    ensures { Names scratch.now work.now (namespace (scope scratch.now spans.now k work.now bindings.now n) (front_of c name.now)) result }
{
    let found = lookup(front_of(name, c), scratch, spans, k, work, bindings, n);
    match found {
        Found::Unknown => Found::Unknown,
        Found::Xml => Found::Xml,
        Found::Own(at, size) => {
            if copy::piece(scratch, at, size).len() == 0 {
                return Found::Unknown;
            }
            Found::Own(at, size)
        }
        Found::Held(at, size) => {
            if copy::piece(work, at, size).len() == 0 {
                return Found::Unknown;
            }
            Found::Held(at, size)
        }
    }
}

// The class of each of the first k attributes, into `classes`; false where they are too many for it.
pub fn classify(
    scratch: &[u8],
    spans: &[u32],
    k: usize,
    work: &[u8],
    bindings: &[u32],
    n: usize,
    classes: &mut [usize],
) -> bool
    ensures { Classifies scratch.now spans.now k work.now bindings.now n classes.old classes.new result }
{
    if classes.len() / Class::WORDS < k {
        return false;
    }
    let own = declaring(scratch, spans, k);
    for j in 0..k {
        let class = class_of(scratch, spans, own, work, bindings, n, j);
        Class::store(classes, j, class);
    }
    true
}

// Do two attributes repeat outside Literal content? `classes` has their classes.
pub fn repeated_expanded<'a>(
    scratch: &'a [u8],
    spans: &[u32],
    k: usize,
    work: &'a [u8],
    classes: &[usize],
) -> bool
    ensures { result ≡ pairs (same_keys scratch.now spans.now work.now classes.now) 0 k }
{
    for j in 0..k {
        if key_behind(scratch, spans, k, work, classes, j) {
            return true;
        }
    }
    false
}

// Do two attributes have the same name as written?
pub fn repeated_written(scratch: &[u8], spans: &[u32], k: usize) -> bool
    ensures { result ≡ repeats_written (attributes_of scratch.now spans.now k) }
{
    for j in 0..k {
        if written_behind(scratch, spans, k, j) {
            return true;
        }
    }
    false
}

// Are a and b joined the same bytes as c and d joined?
pub fn same_joined(a: &[u8], b: &[u8], c: &[u8], d: &[u8]) -> bool
    ensures { result ≡ same (a.now ++ b.now) (c.now ++ d.now) }
{
    if c.len() < a.len() {
        return same_from_shorter(c, d, a, b);
    }
    same_from_shorter(a, b, c, d)
}

// The same where a is no longer than c. What tells names apart stands at their ends, and fronts may be long and alike: they are compared last.
fn same_from_shorter(a: &[u8], b: &[u8], c: &[u8], d: &[u8]) -> bool
    requires { length a.now ≤ length c.now }
    ensures { result ≡ same (a.now ++ b.now) (c.now ++ d.now) }
{
    let m = a.len();
    let more = c.len() - m;
    if b.len() < more {
        return false;
    }
    if b.len() - more != d.len() {
        return false;
    }
    if !copy::equal(&b[more..], d) {
        return false;
    }
    if !copy::begins(b, &c[m..]) {
        return false;
    }
    copy::equal(a, &c[0..m])
}

// Has one of the k attributes behind attribute j its name as written?
fn written_behind(scratch: &[u8], spans: &[u32], k: usize, j: usize) -> bool
    ensures { result ≡ behind_in (same_written scratch.now spans.now) j k }
{
    if k <= j {
        return false;
    }
    let name = name_of(scratch, spans, j);
    for i in j + 1..k {
        if copy::equal(name, name_of(scratch, spans, i)) {
            return true;
        }
    }
    false
}

// Does one of the k attributes behind attribute j repeat it?
fn key_behind<'a>(
    scratch: &'a [u8],
    spans: &[u32],
    k: usize,
    work: &'a [u8],
    classes: &[usize],
    j: usize,
) -> bool
    ensures { result ≡ behind_in (same_keys scratch.now spans.now work.now classes.now) j k }
{
    if k <= j {
        return false;
    }
    let first = j + 1;
    if k <= first {
        return false;
    }
    let class = Class::load(classes, j);
    let space = space_of(class, scratch, work, &XML);
    let name = tail_of(class, scratch, spans, j);
    for i in first..k {
        if is_key(scratch, spans, work, classes, j, class, space, name, i) {
            return true;
        }
    }
    false
}

// Are attributes j and i of one kind, and compared by the same text? What j is compared by is at hand: its class, its namespace and the name
// behind it. Where the namespace of both stands at one place, the names tell. Always inlined: a call for each pair costs half as much again.
#[inline(always)]
pub fn is_key<'a>(
    scratch: &'a [u8],
    spans: &[u32],
    work: &'a [u8],
    classes: &[usize],
    j: usize,
    class: Class,
    space: &[u8],
    name: &[u8],
    i: usize,
) -> bool
    requires { Keyed scratch.now spans.now work.now classes.now j class space.now name.now }
    ensures { result ≡ same_keys scratch.now spans.now work.now classes.now j i }
{
    if Class::same(classes, j, i) {
        return copy::equal(name, tail_of(class, scratch, spans, i));
    }
    let other = Class::load(classes, i);
    if class.kind() != other.kind() {
        return false;
    }
    let other_space = space_of(other, scratch, work, &XML);
    same_joined(space, name, other_space, tail_of(other, scratch, spans, i))
}

// What an attribute of this class is compared by begins with a namespace, or with nothing; `xml` is that of the prefix `xml`.
pub fn space_of<'a>(class: Class, scratch: &'a [u8], work: &'a [u8], xml: &'a [u8]) -> &'a [u8]
    ensures { result.now ≡ space_by scratch.now work.now xml.now class }
{
    match class {
        Class::Declaration | Class::Unknown | Class::Unprefixed => &[],
        Class::Xml => xml,
        Class::Own(at, n) => copy::piece(scratch, at, n),
        Class::Held(at, n) => copy::piece(work, at, n),
    }
}

// What stands behind that: the local part of the name of attribute j, or the name as written.
pub fn tail_of<'a, 'b>(class: Class, scratch: &'a [u8], spans: &'b [u32], j: usize) -> &'a [u8]
    ensures { result.now ≡ tail_at scratch.now spans.now class j }
{
    match class {
        Class::Declaration | Class::Unknown | Class::Unprefixed => name_of(scratch, spans, j),
        Class::Xml | Class::Own(_, _) | Class::Held(_, _) => local_of(scratch, spans, j),
    }
}

// The class of attribute j of k.
fn class_of(
    scratch: &[u8],
    spans: &[u32],
    k: usize,
    work: &[u8],
    bindings: &[u32],
    n: usize,
    j: usize,
) -> Class
    ensures { Says result scratch.now work.now (scope scratch.now spans.now k work.now bindings.now n) (attribute_at scratch.now spans.now j) (front_of (colon_at spans.now j) (name_at scratch.now spans.now j)) }
{
    if is_declaration(name_of(scratch, spans, j)) {
        return Class::Declaration;
    }
    let prefix = prefix_of(scratch, spans, j);
    if prefix.len() == 0 {
        return Class::Unprefixed;
    }
    Class::from(lookup(prefix, scratch, spans, k, work, bindings, n))
}

// Is attribute j legal? It is where it declares nothing.
fn legal_at(scratch: &[u8], spans: &[u32], j: usize) -> bool
    ensures { result ≡ legal (attribute_at scratch.now spans.now j) }
{
    let name = name_of(scratch, spans, j);
    if !is_declaration(name) {
        return true;
    }
    is_legal(declared_prefix(name), value_of(scratch, spans, j))
}

// How many bindings attribute j declares.
fn declared_at(scratch: &[u8], spans: &[u32], j: usize) -> usize
    ensures { result ≡ bindings_in (attribute_at scratch.now spans.now j) }
{
    if is_declaration(name_of(scratch, spans, j)) {
        return 1;
    }
    0
}

// How many attributes there are up to the last of the k that is a declaration: a prefix need not be looked for behind it.
fn declaring(scratch: &[u8], spans: &[u32], k: usize) -> usize
    ensures { declared (attributes_of scratch.now spans.now result) ≡ declared (attributes_of scratch.now spans.now k) }
{
    for j in (0..k).rev() {
        if is_declaration(name_of(scratch, spans, j)) {
            return j + 1;
        }
    }
    0
}

// The first of the tag's own declarations that binds the prefix.
fn own(prefix: &[u8], scratch: &[u8], spans: &[u32], k: usize) -> Found
    ensures { IsOwn prefix.now scratch.now spans.now k result }
{
    for j in 0..k {
        if binds(prefix, scratch, spans, j) {
            return own_at(spans, j);
        }
    }
    Found::Unknown
}

// Does attribute j bind the prefix?
fn binds(prefix: &[u8], scratch: &[u8], spans: &[u32], j: usize) -> bool
    ensures { result ≡ binds_to prefix.now (attribute_at scratch.now spans.now j) }
{
    let name = name_of(scratch, spans, j);
    if !is_declaration(name) {
        return false;
    }
    copy::equal(prefix, declared_prefix(name))
}

// The value of attribute j.
fn own_at(spans: &[u32], j: usize) -> Found
    ensures { result ≡ Found.Own (start_at spans.now j + size_at spans.now j) (value_size_at spans.now j) }
{
    let at = attribute_word(spans, j, 0);
    let n = attribute_word(spans, j, 1);
    let v = attribute_word(spans, j, 3);
    Found::Own(at + n, v)
}

// The last row that binds the prefix.
fn held(prefix: &[u8], work: &[u8], bindings: &[u32], n: usize) -> Found
    ensures { IsHeld prefix.now work.now bindings.now n result }
{
    for i in (0..n).rev() {
        if copy::equal(prefix, prefix_at(work, bindings, i)) {
            return held_at(bindings, i);
        }
    }
    Found::Unknown
}

// The prefix that row i binds. Most tables have the row whole, and one test tells.
fn prefix_at<'a>(work: &'a [u8], bindings: &[u32], i: usize) -> &'a [u8]
    ensures { result.now ≡ (binding_of work.now (row_at bindings.now i)).0 }
{
    if i < bindings.len() / 3 {
        let from = i * 3;
        return stretch(work, wide(bindings[from]), wide(bindings[from + 1]));
    }
    copy::piece(work, row_word(bindings, i, 0), row_word(bindings, i, 1))
}

// The same as a piece, where `at` and `n` are words: one test tells whether all of it is there.
fn stretch(s: &[u8], at: usize, n: usize) -> &[u8]
    requires { (at < 4294967296) × (n < 4294967296) }
    ensures { result.now ≡ part s.now at n }
{
    let to = at + n;
    if to <= s.len() {
        return &s[at..to];
    }
    copy::piece(s, at, n)
}

// The namespace that row i binds it to.
fn held_at(bindings: &[u32], i: usize) -> Found
    ensures { result ≡ held_by (row_at bindings.now i) }
{
    let at = row_word(bindings, i, 0);
    let size = row_word(bindings, i, 1);
    let more = row_word(bindings, i, 2);
    Found::Held(at + size, more)
}

// Word f of attribute j.
pub fn attribute_word(spans: &[u32], j: usize, f: usize) -> usize
    ensures { Word spans.now (j * 4 + f) result }
{
    if spans.len() / 4 < j {
        return 0;
    }
    let from = j * 4;
    if spans.len() - from <= f {
        return 0;
    }
    wide(spans[from + f])
}

// Word f of row i.
fn row_word(rows: &[u32], i: usize, f: usize) -> usize
    ensures { Word rows.now (i * 3 + f) result }
{
    if rows.len() / 3 < i {
        return 0;
    }
    let from = i * 3;
    if rows.len() - from <= f {
        return 0;
    }
    wide(rows[from + f])
}
