// UTF-8, and the characters and names of XML: utils.rs and the end of parser.rs.
#![tactic(auto)]

ghost use Rattle.std.specs.Prelude.{◌≡◌, true, ◌+◌, ◌<◌, ◌≤◌, length};
ghost use Rattle.spec.specs.Bytes.{ascii, up_to, among, every, in_ranges};
ghost use Rattle.spec.specs.Utf8.{leading_ones, goes_on, is_scalar, as_characters};
ghost use Rattle.spec.specs.XmlNames.{is_char, is_name_start, is_name_char, is_nc_name};
ghost use Rattle.spec.specs.RdfXml.{is_blank};
ghost use Rattle.utils.specs.Decoding.{Decodes, Begins, joins};
ghost use Rattle.utils.specs.Ranges.{ranges, ascending_from};
ghost use Rattle.utils.specs.Names.{name_of, is_nc_rest, starts_nc, goes_on_nc};
ghost use Rattle.utils.specs.Plain.{plain, plain_text, printable};
ghost use Rattle.utils.specs.Walking.{Walked, Steps};

// The bytes that are tested at once.
const BLOCK: usize = 16;

// What some bytes begin with: nothing, a character and how many bytes it has, or no character. Three answers, so no Option.
#[derive(Clone, Copy, PartialEq, Eq, Debug)]
pub enum Decoded {
    End,
    Character(u32, usize),
    Malformed,
}

// A name as written: none, one without a prefix, or one with its first colon at a place. As an Option of an Option it is no plainer.
#[derive(Clone, Copy, PartialEq, Eq, Debug)]
pub enum Name {
    NotName,
    Local,
    Prefixed(usize),
}

// First and last character of each range of those that may start a name.
const START_RANGES: [(u32, u32); 16] = [
    (0x3A, 0x3A),
    (0x41, 0x5A),
    (0x5F, 0x5F),
    (0x61, 0x7A),
    (0xC0, 0xD6),
    (0xD8, 0xF6),
    (0xF8, 0x2FF),
    (0x370, 0x37D),
    (0x37F, 0x1FFF),
    (0x200C, 0x200D),
    (0x2070, 0x218F),
    (0x2C00, 0x2FEF),
    (0x3001, 0xD7FF),
    (0xF900, 0xFDCF),
    (0xFDF0, 0xFFFD),
    (0x10000, 0xEFFFF),
];

// Of those that may only go on with one.
const FURTHER_RANGES: [(u32, u32); 6] = [
    (0x2D, 0x2D),
    (0x2E, 0x2E),
    (0x30, 0x39),
    (0xB7, 0xB7),
    (0x300, 0x36F),
    (0x203F, 0x2040),
];

// How many one bits a byte begins with: of the first byte of a sequence of several, the sequence's length.
pub fn sequence_length(first: u8) -> u32
    ensures { result ≡ leading_ones first }
{
    u8::leading_zeros(!first)
}

// The first character, and how many bytes it has.
pub fn decode(s: &[u8]) -> Decoded
    ensures { Decodes result s.now }
{
    if s.len() == 0 {
        return Decoded::End;
    }
    let first = s[0];
    if first < 128 {
        return Decoded::Character(first as u32, 1);
    }
    let n = sequence_length(first);
    if n == 2 {
        return sequence(s, 2, (first % 32) as u32, 0x80);
    }
    if n == 3 {
        return sequence(s, 3, (first % 16) as u32, 0x800);
    }
    if n == 4 {
        return sequence(s, 4, (first % 8) as u32, 0x10000);
    }
    Decoded::Malformed
}

// XML 1.0, Char.
pub fn is_char(c: u32) -> bool
    ensures { result ≡ is_char c }
{
    if c < 0x20 {
        return (c == 0x9) | (c == 0xA) | (c == 0xD);
    }
    (c <= 0xD7FF) | (((0xE000 <= c) & (c <= 0xFFFD)) | ((0x10000 <= c) & (c <= 0x10FFFF)))
}

pub fn is_name_start_char(c: u32) -> bool
    ensures { result ≡ is_name_start c }
{
    in_pairs(&START_RANGES, c)
}

pub fn is_name_char(c: u32) -> bool
    ensures { result ≡ is_name_char c }
{
    if is_name_start_char(c) {
        return true;
    }
    in_pairs(&FURTHER_RANGES, c)
}

// Is a character in one of some ranges, first and last of each? They ascend, so the first that begins above it ends the search.
pub fn in_pairs(ranges: &[(u32, u32)], c: u32) -> bool
    requires { ascending_from 0 ranges.now ≡ true }
    ensures { result ≡ in_ranges ranges.now c }
{
    for (first, last) in ranges {
        if c < *first {
            return false;
        }
        if c <= *last {
            return true;
        }
    }
    false
}

// The same of a table that is laid flat: first and last of each range, one behind the other. An odd last bound says nothing.
pub fn in_ranges(bounds: &[u32], c: u32) -> bool
    requires { ascending_from 0 (ranges bounds.now) ≡ true }
    ensures { result ≡ in_ranges (ranges bounds.now) c }
{
    let mut i = 0;
    while i + 1 < bounds.len() {
        if c < bounds[i] {
            return false;
        }
        if c <= bounds[i + 1] {
            return true;
        }
        i += 2;
    }
    false
}

pub fn is_whitespace(b: u8) -> bool
    ensures { result ≡ among (ascii " \t\n\r") b }
{
    (b == 32) | (b == 9) | (b == 10) | (b == 13)
}

// Only whitespace.
pub fn is_blank(s: &[u8]) -> bool
    ensures { result ≡ is_blank s.now }
{
    for b in s {
        if !is_whitespace(*b) {
            return false;
        }
    }
    true
}

// Is it surely in ASCII without control characters? By blocks of sixteen bytes; the last may begin in the one before it,
// so no `for` over blocks fits.
pub fn is_printable(s: &[u8]) -> bool
    ensures { result ≡ true → every printable s.now ≡ true }
{
    if s.len() < BLOCK {
        return is_printable_short(s);
    }
    let last = s.len() - BLOCK;
    let mut i = 0;
    while i < last {
        let end = i + BLOCK;
        if !is_printable_block(&s[i..end]) {
            return false;
        }
        i = end;
    }
    is_printable_block(&s[last..])
}

// UTF-8 of nothing but XML's characters. A turn passes what was found, so no `for` fits.
pub fn is_text(s: &[u8]) -> bool
    ensures { result ≡ as_characters (every is_char) s.now }
{
    let mut i = skip_plain(s);
    while i < s.len() {
        if is_plain(s[i]) {
            i += 1;
        } else {
            let Some(n) = text_char(&s[i..]) else {
                return false;
            };
            i += n;
            i += skip_behind(&s[i..]);
        }
    }
    true
}

pub fn is_nc_name(s: &[u8]) -> bool
    ensures { result ≡ is_nc_name s.now }
{
    match nc_start(s) {
        Some(n) => is_nc_rest(&s[n..]),
        None => false,
    }
}

// NCName or NCName:NCName, and where the colon is.
pub fn qname(s: &[u8]) -> Name
    ensures { result ≡ name_of s.now }
{
    let k = up_to_colon(s);
    if k < s.len() {
        if !is_nc_name(&s[..k]) {
            return Name::NotName;
        }
        let local = k + 1;
        if is_nc_name(&s[local..]) {
            return Name::Prefixed(k);
        }
        return Name::NotName;
    }
    if is_nc_name(s) {
        return Name::Local;
    }
    Name::NotName
}

// A byte that goes on with a sequence.
fn goes_on(b: u8) -> bool
    ensures { result ≡ goes_on b }
{
    sequence_length(b) == 1
}

// No surrogate, and no character above the last.
fn is_scalar(c: u32) -> bool
    ensures { result ≡ is_scalar c }
{
    (c <= 0xD7FF) | ((0xE000 <= c) & (c <= 0x10FFFF))
}

// The bits of at most three bytes that go on, behind those of the first byte.
fn join(bits: u32, s: &[u8]) -> Option<u32>
    requires bits_bound { bits < 32 }
    requires s_len_bound { length s.now ≤ 3 }
    ensures { result ≡ joins bits s.now }
{
    let mut value = bits;
    for b in s {
        if !goes_on(*b) {
            return None;
        }
        value = value * 64 + (*b % 64) as u32;
    }
    Some(value)
}

// A sequence of several bytes, by what its first byte says: how many they are, its own bits, and the least character for that many.
fn sequence(s: &[u8], n: usize, bits: u32, low: u32) -> Decoded
    requires { Begins s.now n bits low }
    ensures { Decodes result s.now }
{
    if s.len() < n {
        return Decoded::Malformed;
    }
    match join(bits, &s[1..n]) {
        None => Decoded::Malformed,
        Some(c) => {
            if c < low {
                return Decoded::Malformed;
            }
            if is_scalar(c) {
                Decoded::Character(c, n)
            } else {
                Decoded::Malformed
            }
        }
    }
}

// How many plain bytes stand at the front, as far as blocks of sixteen show it. The last block may begin in the one before it,
// so no `for` over blocks fits.
fn skip_plain(s: &[u8]) -> usize
    ensures { Walked (as_characters (every is_char)) s.now result }
{
    if s.len() < BLOCK {
        return 0;
    }
    let last = s.len() - BLOCK;
    let mut i = 0;
    while i < last {
        let end = i + BLOCK;
        if !is_plain_block(&s[i..end]) {
            return i;
        }
        i = end;
    }
    if is_plain_block(&s[last..]) {
        return s.len();
    }
    i
}

// The same behind a character that is not plain, where a plain one follows: in many scripts none does.
fn skip_behind(s: &[u8]) -> usize
    ensures { Walked (as_characters (every is_char)) s.now result }
{
    if s.len() == 0 {
        return 0;
    }
    if is_plain(s[0]) {
        return skip_plain(s);
    }
    0
}

// Are all bytes plain? No branch inside the loop, so that those of a block are tested at once.
fn is_plain_block(block: &[u8]) -> bool
    ensures { result ≡ every plain_text block.now }
{
    let mut all = true;
    for b in block {
        all = all & is_plain(*b);
    }
    all
}

// The same of fewer than sixteen bytes; of fewer than four nothing is sure.
fn is_printable_short(s: &[u8]) -> bool
    requires { length s.now < 16 }
    ensures { result ≡ true → every printable s.now ≡ true }
{
    if 8 <= s.len() {
        return are_halves_printable(s, 8);
    }
    if 4 <= s.len() {
        return are_halves_printable(s, 4);
    }
    false
}

// The same by the first `n` bytes and the last `n`, which may overlap.
fn are_halves_printable(s: &[u8], n: usize) -> bool
    requires n_in_bounds { n ≤ length s.now }
    requires s_len_bound { length s.now ≤ n + n }
    ensures { result ≡ true → every printable s.now ≡ true }
{
    let last = s.len() - n;
    is_printable_block(&s[..n]) & is_printable_block(&s[last..])
}

// Are all bytes in ASCII, and none a control character? No branch inside the loop.
fn is_printable_block(block: &[u8]) -> bool
    ensures { result ≡ every printable block.now }
{
    let mut all = true;
    for b in block {
        all = all & ((32 <= *b) & (*b < 128));
    }
    all
}

// ASCII, and no control character but LF.
fn is_plain(b: u8) -> bool
    ensures { result ≡ plain_text b }
{
    ((32 <= b) & (b < 128)) | (b == 10)
}

// How many bytes the first character has, where it is one of XML's.
fn text_char(s: &[u8]) -> Option<usize>
    requires { 0 < length s.now }
    ensures { Steps (as_characters (every is_char)) (as_characters (every is_char)) result s.now }
{
    match decode(s) {
        Decoded::Character(c, n) => {
            if is_char(c) {
                return Some(n);
            }
            None
        }
        Decoded::End => None,
        Decoded::Malformed => None,
    }
}

// How many bytes the first character has, where it may start an NCName.
fn nc_start(s: &[u8]) -> Option<usize>
    ensures { Steps is_nc_name is_nc_rest result s.now }
{
    if s.len() == 0 {
        return None;
    }
    if is_plain_start(s[0]) {
        return Some(1);
    }
    match decode(s) {
        Decoded::Character(c, n) => {
            if c == 0x3A {
                return None;
            }
            if is_name_start_char(c) {
                return Some(n);
            }
            None
        }
        Decoded::End => None,
        Decoded::Malformed => None,
    }
}

// Name characters other than the colon, and nothing else. A turn passes what was found, so no `for` fits.
fn is_nc_rest(s: &[u8]) -> bool
    ensures { result ≡ is_nc_rest s.now }
{
    let mut i = 0;
    while i < s.len() {
        if is_plain_name(s[i]) {
            i += 1;
        } else {
            let Some(n) = nc_char(&s[i..]) else {
                return false;
            };
            i += n;
        }
    }
    true
}

// How many bytes the first character has, where it may go on with an NCName.
// Not inlined: the loop over plain bytes then executes 201 instructions on a name of 12 bytes, and else 215.
#[inline(never)]
fn nc_char(s: &[u8]) -> Option<usize>
    requires { 0 < length s.now }
    ensures { Steps is_nc_rest is_nc_rest result s.now }
{
    match decode(s) {
        Decoded::Character(c, n) => {
            if c == 0x3A {
                return None;
            }
            if is_name_char(c) {
                return Some(n);
            }
            None
        }
        Decoded::End => None,
        Decoded::Malformed => None,
    }
}

// In ASCII, what may start an NCName by the table: a letter or `_`. Small letters first, being the most.
pub fn is_plain_start(b: u8) -> bool
    ensures { result ≡ plain starts_nc b }
{
    if (97 <= b) & (b <= 122) {
        return true;
    }
    ((65 <= b) & (b <= 90)) | (b == 95)
}

// In ASCII, what may go on with an NCName by the table: a letter, digit, `-`, `.` or `_`.
pub fn is_plain_name(b: u8) -> bool
    ensures { result ≡ plain goes_on_nc b }
{
    if is_plain_start(b) {
        return true;
    }
    ((48 <= b) & (b <= 57)) | (b == 45) | (b == 46)
}

// How many bytes stand before the first colon.
fn up_to_colon(s: &[u8]) -> usize
    ensures { result ≡ length (up_to (among (ascii ":")) s.now) }
{
    copy::find(s, b':')
}
