// What is kept of a document between events: registers by value, tables of words and the work store lent. specs/Meaning.antt says what
// they mean, specs/Valid.antt when they mean something.
#![tactic(auto)]

ghost use Rattle.std.specs.Prelude.{◌≡◌, ◌+◌, ◌-◌, ◌*◌, ◌≤◌, ◌<◌, true, eqb, length};
ghost use Rattle.state_words.specs.Parts.{TAIL, END, FRAME};
ghost use Rattle.state_words.specs.Words.{pick};
ghost use Rattle.state.specs.Meaning.{at, child_size};
ghost use Rattle.state.specs.Valid.{noted_of, noted_in, noted_ok, rises, empty_or, parts_ok, chained, children_ok, kind_ok, node_below, is_root_in, stands, element_ok, frames_ok, ceiling, inners_ok, counts_ok, lengths_ok, valid_state};
ghost use Rattle.state.specs.Live.{started_with};
ghost use Rattle.state.specs.Language.{bytes_found};

pub mod language;

use copy::words::{byte, wide};
use label::BlankNodeIdGenerator;
use spec::Mode;
use state_words::{Frame, Kind, Row};

// The numbers of a document, in groups: one more number touches the literals of its own group.
#[derive(Clone, Copy)]
pub struct Registers {
    // What was chosen of the document at its start.
    pub mode: Mode,
    pub flags: Flags,
    pub store: Store,
    pub counts: Counts,
}

// No call goes on from a closed document; there was a root; there is a start base.
#[derive(Clone, Copy)]
pub struct Flags {
    pub closed: bool,
    pub rooted: bool,
    pub based: bool,
}

// The work store is used up to `top`, the start base first, which has `base` bytes; and from `low` on. `noted` of these bytes are no held
// ones: what a packet remembers counts for no limit.
#[derive(Clone, Copy)]
pub struct Store {
    pub base: usize,
    pub top: usize,
    pub low: usize,
    pub noted: usize,
}

// Open elements outside Literal content, `depth`, and inside, `inner`; bindings that the former declare, `outer`, and all; labels generated.
#[derive(Clone, Copy)]
pub struct Counts {
    pub depth: usize,
    pub inner: usize,
    pub outer: usize,
    pub bindings: usize,
    pub labels: u64,
}

// A stretch of a store: where it starts, and how many bytes it has.
#[derive(Clone, Copy)]
pub struct Span {
    pub at: usize,
    pub len: usize,
}

// The bytes of a stretch; no byte where there is none.
#[tactic(auto, unfolding(crate::specs::Language::bytes_found))]
pub fn bytes_found<'a>(found: Option<Span>, store: &'a [u8]) -> &'a [u8]
    ensures { result.now ≡ bytes_found found store.now }
{
    match found {
        Some(span) => copy::piece(store, span.at, span.len),
        None => &store[0..0],
    }
}

impl Registers {
    // Bytes of the work store.
    pub const STORE: usize = 65_536;

    // Bytes that an event may leave held.
    pub const MOST_HELD: usize = 49_152;

    // Bytes that a packet may remember: an IRI.
    pub const MOST_NOTED: usize = 1_024;

    // Of these groups, number by number: a group that is copied as a whole is copied through memory.
    pub fn of(mode: Mode, flags: Flags, store: Store, counts: Counts) -> Self
        ensures { result ≡ record { mode = mode; flags = flags; store = store; counts = counts } }
    {
        Registers {
            mode: Mode { xmp: mode.xmp },
            flags: Flags {
                closed: flags.closed,
                rooted: flags.rooted,
                based: flags.based,
            },
            store: Store {
                base: store.base,
                top: store.top,
                low: store.low,
                noted: store.noted,
            },
            counts: Counts {
                depth: counts.depth,
                inner: counts.inner,
                outer: counts.outer,
                bindings: counts.bindings,
                labels: counts.labels,
            },
        }
    }

    // Of a fresh document, with a start base of `base` bytes, if there is one: a flag and a number, as both are stored.
    pub fn started(mode: Mode, based: bool, base: usize) -> Self
        ensures { result ≡ started_with mode based base }
    {
        Registers {
            mode,
            flags: Flags {
                closed: false,
                rooted: false,
                based,
            },
            store: Store {
                base,
                top: base,
                low: Self::STORE,
                noted: 0,
            },
            counts: Counts {
                depth: 0,
                inner: 0,
                outer: 0,
                bindings: 0,
                labels: 0,
            },
        }
    }
}

// May a call go on from this state?
pub fn valid(r: Registers, frames: &[u32], bindings: &[u32], inners: &[u32], work: &[u8]) -> bool
    ensures { result ≡ valid_state r frames.now bindings.now inners.now work.now }
{
    if !lengths_ok(frames, bindings, inners, work) {
        return false;
    }
    if !counts_ok(r) {
        return false;
    }
    if !inners_ok(
        inners,
        bindings,
        r.counts.outer,
        r.counts.inner,
        r.store.low,
        r.counts.bindings,
    ) {
        return false;
    }
    if !noted_ok(r, frames) {
        return false;
    }
    frames_ok(
        frames,
        bindings,
        work,
        r.store.base,
        r.counts.depth,
        r.store.top,
        r.counts.outer,
    )
}

#[tactic(auto, unfolding(crate::specs::Valid::lengths_ok, spec::specs::Limits::most_open_elements, spec::specs::Limits::most_bindings, spec::specs::Limits::work_store_bytes))]
fn lengths_ok(frames: &[u32], bindings: &[u32], inners: &[u32], work: &[u8]) -> bool
    ensures { result ≡ lengths_ok frames.now bindings.now inners.now work.now }
{
    frames.len() == Frame::TABLE
        && bindings.len() == Row::BINDINGS
        && inners.len() == Row::INNERS
        && work.len() == Registers::STORE
}

#[tactic(auto, unfolding(crate::specs::Valid::counts_ok, spec::specs::Limits::most_open_elements, spec::specs::Limits::most_bindings, spec::specs::Limits::most_labels))]
fn counts_ok(r: Registers) -> bool
    ensures { result ≡ counts_ok r }
{
    if r.counts.depth > Frame::MOST {
        return false;
    }
    if r.counts.inner > Frame::MOST - r.counts.depth {
        return false;
    }
    if r.counts.bindings > Row::MOST_BINDINGS {
        return false;
    }
    if r.store.top > r.store.low {
        return false;
    }
    if !based_ok(r.flags.based, r.store.base) {
        return false;
    }
    r.counts.labels <= BlankNodeIdGenerator::MOST_LABELS
}

// Without a start base it has no bytes.
fn based_ok(based: bool, base: usize) -> bool
    ensures { result ≡ pick based true (eqb base 0) }
{
    based || base == 0
}

// Are the bytes counted that are noted, and are they few?
#[tactic(auto, unfolding(crate::specs::Valid::noted_ok, spec::specs::Limits::most_name_bytes))]
fn noted_ok(r: Registers, frames: &[u32]) -> bool
    requires { (r.counts.depth ≤ 64) × (r.counts.depth * FRAME ≤ length frames.now) }
    ensures { result ≡ noted_ok r frames.now }
{
    if r.store.noted > Registers::MOST_NOTED {
        return false;
    }
    r.store.noted == noted_in(frames, r.counts.depth)
}

// The bytes that the first n elements have noted.
fn noted_in(frames: &[u32], n: usize) -> usize
    requires { (n ≤ 64) × (n * FRAME ≤ length frames.now) }
    ensures { result ≡ noted_in frames.now n }
{
    let mut noted = 0;
    for i in 0..n {
        noted += noted_of(Frame::load(frames, i));
    }
    noted
}

// The bytes that an element has noted: the tail of rdf:RDF.
#[tactic(auto, unfolding(crate::specs::Valid::noted_by))]
pub fn noted_of(f: Frame) -> usize
    ensures { (result ≡ noted_of f) × (result < 4294967296) }
{
    match f.kind {
        Kind::Rdf => tail_size(f),
        _ => 0,
    }
}

fn tail_size(f: Frame) -> usize
    ensures { (result ≡ at f END - at f TAIL) × (result < 4294967296) }
{
    let at = f.at;
    wide(at[Frame::END].saturating_sub(at[Frame::TAIL]))
}

// Do the elements inside Literal content lie end to end, from `low` to the store's end?
fn inners_ok(
    inners: &[u32],
    bindings: &[u32],
    outer: usize,
    inner: usize,
    low: usize,
    bound: usize,
) -> bool
    requires { (inner * 3 ≤ length inners.now) × (bound * 3 ≤ length bindings.now) }
    ensures { result ≡ inners_ok inners.now bindings.now outer inner low bound }
{
    let mut l = low;
    let mut b = bound;
    for i in (0..inner).rev() {
        let row = Row::load(inners, i);
        let up = ceiling(inners, i);
        let first = wide(row.more);
        let at = wide(row.at);
        if at != l {
            return false;
        }
        if b < first {
            return false;
        }
        if !chained(bindings, first, b - first, at + wide(row.name), up) {
            return false;
        }
        l = up;
        b = first;
    }
    if l != Registers::STORE {
        return false;
    }
    b == outer
}

// Where inner element `i` ends.
fn ceiling(inners: &[u32], i: usize) -> usize
    requires { i * 3 ≤ length inners.now }
    ensures { (result ≡ ceiling inners.now i) × (result < 4294967296) }
{
    if i == 0 {
        return Registers::STORE;
    }
    let row = Row::load(inners, i - 1);
    wide(row.at)
}

// Do the elements outside Literal content lie end to end, from the start base to `top`?
fn frames_ok(
    frames: &[u32],
    bindings: &[u32],
    work: &[u8],
    base: usize,
    depth: usize,
    top: usize,
    outer: usize,
) -> bool
    requires { (depth * FRAME ≤ length frames.now) × (outer * 3 ≤ length bindings.now) × (top ≤ length work.now) }
    ensures { result ≡ frames_ok frames.now bindings.now work.now base depth top outer }
{
    let mut t = top;
    let mut b = outer;
    for i in (0..depth).rev() {
        if !element_ok(frames, bindings, work, i, t, b) {
            return false;
        }
        let f = Frame::load(frames, i);
        let at = f.at;
        let has = f.has;
        t = wide(at[Frame::NAME]);
        b = wide(has[Frame::FIRST]);
    }
    if base != t {
        return false;
    }
    b == 0
}

// One element, which ends at `top` and has bindings up to `b`.
fn element_ok(frames: &[u32], bindings: &[u32], work: &[u8], n: usize, top: usize, b: usize) -> bool
    requires { (n * FRAME + FRAME ≤ length frames.now) × (b * 3 ≤ length bindings.now) × (top ≤ length work.now) }
    ensures { result ≡ element_ok frames.now bindings.now work.now n top b }
{
    let f = Frame::load(frames, n);
    let kind = f.kind;
    let at = f.at;
    let has = f.has;
    let first = wide(has[Frame::FIRST]);
    if wide(at[Frame::END]) != top {
        return false;
    }
    if !rises(at) {
        return false;
    }
    if !parts_ok(f) {
        return false;
    }
    if b < first {
        return false;
    }
    if !chained(
        bindings,
        first,
        b - first,
        wide(at[Frame::BINDINGS]),
        wide(at[Frame::BASE]),
    ) {
        return false;
    }
    if !kind_ok(f, work) {
        return false;
    }
    stands(kind, frames, n)
}

// Do the nine places go up?
fn rises(at: [u32; Frame::PLACES]) -> bool
    ensures { result ≡ rises at END }
{
    at.is_sorted()
}

// A part that is missing is empty.
#[tactic(auto, unfolding(crate::specs::Valid::empty_or))]
fn empty_or(h: u32, a: u32, b: u32) -> bool
    ensures { result ≡ empty_or h a b }
{
    h != 0 || a == b
}

#[tactic(auto, unfolding(crate::specs::Valid::parts_ok))]
fn parts_ok(f: Frame) -> bool
    ensures { result ≡ parts_ok f }
{
    let at = f.at;
    let has = f.has;
    let a = empty_or(has[Frame::BASED], at[Frame::BASE], at[Frame::TAG]);
    let b = empty_or(has[Frame::TAGGED], at[Frame::TAG], at[Frame::MAIN]);
    let c = empty_or(has[Frame::IDENTIFIED], at[Frame::ID], at[Frame::DATATYPE]);
    let d = empty_or(has[Frame::TYPED], at[Frame::DATATYPE], at[Frame::TAIL]);
    a & (b & (c & d))
}

// Do `n` bindings from `b` on lie end to end?
fn chained(bindings: &[u32], b: usize, n: usize, from: usize, to: usize) -> bool
    requires { (b + n) * 3 ≤ length bindings.now }
    ensures { result ≡ chained bindings.now b n from to }
{
    let mut t = to;
    for i in (0..n).rev() {
        let row = Row::load(bindings, b + i);
        let at = wide(row.at);
        if at + wide(row.name) + wide(row.more) != t {
            return false;
        }
        t = at;
    }
    from == t
}

// Do `n` children lie end to end from `from` up to `to`?
fn children_ok(work: &[u8], from: usize, n: usize, to: usize) -> bool
    requires { (to ≤ length work.now) × (from < 4294967296) }
    ensures { result ≡ children_ok work.now from n to }
{
    let mut e = to;
    for _left in (0..n).rev() {
        if e < from + 4 {
            return false;
        }
        let size = child_size(work, e);
        if e < from + 4 + size {
            return false;
        }
        e = e - 4 - size;
    }
    from == e
}

// What its kind does not have is empty.
#[tactic(auto, unfolding(crate::specs::Valid::kind_ok, spec::specs::Limits::most_labels))]
fn kind_ok(f: Frame, work: &[u8]) -> bool
    requires { at f END ≤ length work.now }
    ensures { result ≡ kind_ok f.kind f work.now }
{
    let kind = f.kind;
    let at = f.at;
    let has = f.has;
    match kind {
        Kind::Rdf => at[Frame::MAIN] == at[Frame::TAIL],
        Kind::NodeElt => {
            if at[Frame::ID] != at[Frame::END] {
                return false;
            }
            has[Frame::COUNT] as u64 <= BlankNodeIdGenerator::MOST_LABELS
        }
        Kind::PropertyElt => empty_or(has[Frame::PENDING], at[Frame::TAIL], at[Frame::END]),
        Kind::ParseTypeCollectionPropertyElt => {
            if at[Frame::DATATYPE] != at[Frame::TAIL] {
                return false;
            }
            children_ok(
                work,
                wide(at[Frame::TAIL]),
                wide(has[Frame::COUNT]),
                wide(at[Frame::END]),
            )
        }
        Kind::ParseTypeLiteralPropertyElt => at[Frame::DATATYPE] == at[Frame::TAIL],
        Kind::ParseTypeOtherPropertyElt => at[Frame::DATATYPE] == at[Frame::END],
        Kind::Wrapper => at[Frame::MAIN] == at[Frame::END],
    }
}

// Is the element around element `n` a node?
fn node_below(frames: &[u32], n: usize) -> bool
    requires { n * FRAME ≤ length frames.now }
    ensures { result ≡ node_below frames.now n }
{
    if n == 0 {
        return false;
    }
    let f = Frame::load(frames, n - 1);
    f.kind == Kind::NodeElt
}

// Is element `n` the root, or is the element around it the wrapper?
fn is_root_in(frames: &[u32], n: usize) -> bool
    requires { n * FRAME ≤ length frames.now }
    ensures { result ≡ is_root_in frames.now n }
{
    if n == 0 {
        return true;
    }
    let f = Frame::load(frames, n - 1);
    f.kind == Kind::Wrapper
}

// A property stands in a node, rdf:RDF as the root or in the wrapper, and the wrapper as the root.
#[tactic(auto, unfolding(crate::specs::Valid::stands))]
fn stands(kind: Kind, frames: &[u32], n: usize) -> bool
    requires { n * FRAME ≤ length frames.now }
    ensures { result ≡ stands kind frames.now n }
{
    match kind {
        Kind::Rdf => is_root_in(frames, n),
        Kind::NodeElt => true,
        Kind::PropertyElt
        | Kind::ParseTypeCollectionPropertyElt
        | Kind::ParseTypeLiteralPropertyElt
        | Kind::ParseTypeOtherPropertyElt => node_below(frames, n),
        Kind::Wrapper => n == 0,
    }
}

// The size of the child that ends at `e`.
fn child_size(work: &[u8], e: usize) -> usize
    requires { (4 ≤ e) × (e ≤ length work.now) }
    ensures { (result ≡ child_size work.now e) × (result < 65536) }
{
    byte(work[e - 4]) + 256 * byte(work[e - 3])
}
