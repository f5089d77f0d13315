// IRIs and references to them, checked against the grammar of RFC 3987. Each component ends at the first delimiter that cannot stand in
// it, so a text is cut there and each piece is checked by itself.
#![tactic(auto)]

ghost use Rattle.std.specs.Prelude.{◌≡◌, true, false, ◌&&◌, [], ◌∷◌, ◌<◌, eqb, MatchOption};
ghost use Rattle.spec.specs.Bytes.{among, between, from};
ghost use Rattle.spec.specs.Abnf.{lower, some};
ghost use Rattle.spec.specs.Rfc3987.{is_iri, is_iri_reference, scheme, iauthority, IPv6address, IPvFuture, IPv4address, h16, dec_octet};
ghost use Rattle.iri.specs.Parts.{of, grammar, class_of, allowed, escapes, unreserved, delims, pchar, row, escaped, is_alpha, is_digit, is_alphanum, is_hex, is_ucschar, is_iprivate, lettered, slashed, common, Taken, Walked};
ghost use Rattle.iri.specs.Forms.{Cut, optionally, is_mark, rest_of, part_of, network, server, bracketed, literal, version, colonless};
ghost use Rattle.iri.specs.Addresses.{Undotted, DottedBefore, Counted, Gap, from_gap, octet};

use utils::Decoded;

// A part that is a row of characters, each from the same set. An enum: a trait with nine types would say no more, in more lines.
#[derive(Clone, Copy)]
enum Part {
    Scheme,
    Port,
    Hex,
    Later,
    UserInfo,
    Name,
    Path,
    Query,
    Fragment,
}

// RFC 3987, ucschar: the first and the last character of each range.
const UCSCHAR: [(u32, u32); 17] = [
    (0xA0, 0xD7FF),
    (0xF900, 0xFDCF),
    (0xFDF0, 0xFFEF),
    (0x10000, 0x1FFFD),
    (0x20000, 0x2FFFD),
    (0x30000, 0x3FFFD),
    (0x40000, 0x4FFFD),
    (0x50000, 0x5FFFD),
    (0x60000, 0x6FFFD),
    (0x70000, 0x7FFFD),
    (0x80000, 0x8FFFD),
    (0x90000, 0x9FFFD),
    (0xA0000, 0xAFFFD),
    (0xB0000, 0xBFFFD),
    (0xC0000, 0xCFFFD),
    (0xD0000, 0xDFFFD),
    (0xE1000, 0xEFFFD),
];

// RFC 3987, iprivate.
const IPRIVATE: [(u32, u32); 3] = [(0xE000, 0xF8FF), (0xF0000, 0xFFFFD), (0x100000, 0x10FFFD)];

// An IRI: a scheme, ":", and the rest.
pub fn is_iri(s: &[u8]) -> bool
    ensures { result ≡ is_iri s.now }
{
    match cut(s, b':') {
        Some((scheme, rest)) => is_scheme(scheme) && is_rest(rest, false),
        None => false,
    }
}

// An IRI reference: an IRI, or a relative reference.
pub fn is_iri_reference(s: &[u8]) -> bool
    ensures { result ≡ is_iri_reference s.now }
{
    is_iri(s) || is_rest(s, true)
}

// What stands before the first mark and what stands behind it, where there is one.
fn cut(s: &[u8], mark: u8) -> Option<(&[u8], &[u8])>
    ensures { MatchOption result (from (λ c. eqb c mark) s.now ≡ []) (λ p. Cut mark s.now p.0.now p.1.now) }
{
    let n = copy::find(s, mark);
    if n == s.len() {
        None
    } else {
        Some((&s[..n], &s[n + 1..]))
    }
}

// ALPHA *( ALPHA / DIGIT / "+" / "-" / "." )
fn is_scheme(s: &[u8]) -> bool
    ensures { result ≡ of scheme s.now }
{
    match s {
        [first, rest @ ..] => is_alpha(as_char(*first)) && is_row(Part::Scheme, rest),
        [] => false,
    }
}

// ihier_part or irelative_part, [ "?" iquery ] [ "#" ifragment ]
fn is_rest(s: &[u8], relative: bool) -> bool
    ensures { result ≡ of (rest_of relative) s.now }
{
    let (front, fragment) = s.split_at(copy::find(s, b'#'));
    let (part, query) = front.split_at(copy::find(front, b'?'));
    is_part(part, relative)
        && is_optional(b'?', Part::Query, query)
        && is_optional(b'#', Part::Fragment, fragment)
}

// Nothing, or a mark and a part behind it.
fn is_optional(mark: u8, part: Part, s: &[u8]) -> bool
    requires { is_mark mark ≡ true }
    ensures { result ≡ of (optionally mark part) s.now }
{
    match s {
        [first, rest @ ..] => *first == mark && is_row(part, rest),
        [] => true,
    }
}

// ihier_part, or irelative_part, whose first segment has no ":"
fn is_part(s: &[u8], relative: bool) -> bool
    ensures { result ≡ of (part_of relative) s.now }
{
    // No slice pattern with bytes in it: proofs could cite them only by names that may change.
    if copy::begins(s, b"//") {
        return is_network(&s[2..]);
    }
    is_row(Part::Path, s) && (!relative || is_colonless(s))
}

// iauthority ipath_abempty
fn is_network(s: &[u8]) -> bool
    ensures { result ≡ of network s.now }
{
    let (authority, path) = s.split_at(copy::find(s, b'/'));
    is_authority(authority) && is_row(Part::Path, path)
}

// No ":" before the first "/".
fn is_colonless(s: &[u8]) -> bool
    ensures { result ≡ colonless s.now }
{
    let n = copy::find(s, b'/');
    copy::find(&s[..n], b':') == n
}

// [ iuserinfo "@" ] ihost [ ":" port ]
fn is_authority(s: &[u8]) -> bool
    ensures { result ≡ of iauthority s.now }
{
    match cut(s, b'@') {
        Some((user, server)) => is_row(Part::UserInfo, user) && is_server(server),
        None => is_server(s),
    }
}

// ihost [ ":" port ]. An IPv4 address is a registered name too.
fn is_server(s: &[u8]) -> bool
    ensures { result ≡ of server s.now }
{
    if copy::begins(s, b"[") {
        return is_bracketed(&s[1..]);
    }
    let (name, port) = s.split_at(copy::find(s, b':'));
    is_row(Part::Name, name) && is_optional(b':', Part::Port, port)
}

// ( IPv6address / IPvFuture ) "]" [ ":" port ]
fn is_bracketed(s: &[u8]) -> bool
    ensures { result ≡ of bracketed s.now }
{
    match cut(s, b']') {
        Some((address, port)) => is_literal(address) && is_optional(b':', Part::Port, port),
        None => false,
    }
}

// IPv6address / IPvFuture
fn is_literal(s: &[u8]) -> bool
    ensures { result ≡ of literal s.now }
{
    is_ipv6(s) || is_future(s)
}

// "v" and a version; the letter in either case
fn is_future(s: &[u8]) -> bool
    ensures { result ≡ of IPvFuture s.now }
{
    match s {
        [first, rest @ ..] => first.eq_ignore_ascii_case(&b'v') && is_version(rest),
        [] => false,
    }
}

// 1*HEXDIG "." 1*( unreserved / sub_delims / ":" ), behind the "v"
fn is_version(s: &[u8]) -> bool
    ensures { result ≡ of version s.now }
{
    match cut(s, b'.') {
        Some((digits, rest)) => is_filled(Part::Hex, digits) && is_filled(Part::Later, rest),
        None => false,
    }
}

// Eight groups, or at most seven on both sides of the first "::".
fn is_ipv6(s: &[u8]) -> bool
    ensures { result ≡ of IPv6address s.now }
{
    match cut_gap(s) {
        Some((front, back)) => {
            let before = count_groups(front, false);
            let behind = count_groups(back, true);
            match (before, behind) {
                (Some(m), Some(n)) => m + n <= 7,
                _ => false,
            }
        }
        None => count_groups(s, true) == Some(8),
    }
}

// What stands before the first "::" and what stands behind it, where there is one.
fn cut_gap(s: &[u8]) -> Option<(&[u8], &[u8])>
    ensures { MatchOption result (from_gap s.now ≡ []) (λ p. Gap s.now p.0.now p.1.now) }
{
    for i in 0..s.len() {
        if copy::begins(&s[i..], b"::") {
            return Some((&s[..i], &s[i + 2..]));
        }
    }
    None
}

// How many groups with ":" between them, where it is such a row of up to eight. The last two may be an IPv4 address, if so said.
fn count_groups(s: &[u8], address: bool) -> Option<usize>
    ensures { MatchOption result (Counted address s.now 9) (λ n. Counted address s.now n) }
{
    if s.is_empty() {
        return Some(0);
    }
    let mut left = s;
    for count in 0..8 {
        match cut(left, b':') {
            Some((group, behind)) => {
                if !is_group(group) {
                    return None;
                }
                left = behind;
            }
            None => {
                if is_group(left) {
                    return Some(count + 1);
                }
                if address && is_ipv4(left) {
                    return Some(count + 2);
                }
                return None;
            }
        }
    }
    None
}

// 1*4HEXDIG
fn is_group(s: &[u8]) -> bool
    ensures { result ≡ of h16 s.now }
{
    match s.len() {
        1..=4 => is_row(Part::Hex, s),
        _ => false,
    }
}

// Four octets with "." between them.
fn is_ipv4(s: &[u8]) -> bool
    ensures { result ≡ of IPv4address s.now }
{
    match last_octet(s) {
        Some(last) => is_octet(last),
        None => false,
    }
}

// What stands behind three octets, each with its ".".
fn last_octet(s: &[u8]) -> Option<&[u8]>
    ensures { MatchOption result (of IPv4address s.now ≡ false) (λ t. of IPv4address s.now ≡ of dec_octet t.now) }
{
    let second = behind_octet(s)?;
    let third = behind_octet(second)?;
    behind_octet(third)
}

// What stands behind an octet and its ".".
fn behind_octet(s: &[u8]) -> Option<&[u8]>
    ensures { MatchOption result (Undotted s.now) (λ t. DottedBefore s.now t.now) }
{
    match cut(s, b'.') {
        Some((octet, behind)) => { if is_octet(octet) { Some(behind) } else { None } }
        None => None,
    }
}

// 0 to 255, without a zero in front.
fn is_octet(s: &[u8]) -> bool
    ensures { result ≡ of dec_octet s.now }
{
    match s {
        [a] => is_digit(as_char(*a)),
        [a, b] => is_two_digits(as_char(*a), as_char(*b)),
        [a, b, c] => is_three_digits(as_char(*a), as_char(*b), as_char(*c)),
        _ => false,
    }
}

// 10 to 99
#[tactic(auto, unfolding(crate::specs::Addresses::octet, crate::specs::Parts::is_digit, spec::specs::Bytes::byte))]
fn is_two_digits(a: u32, b: u32) -> bool
    ensures { result ≡ octet (a ∷ b ∷ []) }
{
    is_within(a, b'1' as u32, b'9' as u32) && is_digit(b)
}

// 100 to 255
#[tactic(auto, unfolding(crate::specs::Addresses::octet, crate::specs::Parts::is_digit, spec::specs::Bytes::byte))]
fn is_three_digits(a: u32, b: u32, c: u32) -> bool
    ensures { result ≡ octet (a ∷ b ∷ c ∷ []) }
{
    (a == b'1' as u32 && is_digit(b) && is_digit(c))
        || (a == b'2' as u32
            && ((is_within(b, b'0' as u32, b'4' as u32) && is_digit(c))
                || (b == b'5' as u32 && is_within(c, b'0' as u32, b'5' as u32))))
}

// At least one character of a part.
fn is_filled(part: Part, s: &[u8]) -> bool
    ensures { result ≡ of (some (grammar (class_of part))) s.now }
{
    !s.is_empty() && is_row(part, s)
}

// Any number of characters of a part, as they are or escaped.
fn is_row(part: Part, s: &[u8]) -> bool
    ensures { result ≡ of (row part) s.now }
{
    let mut at = skip_common(part, s);
    // `at` goes on by whole characters, and so counts no bytes one by one.
    while at < s.len() {
        let Some(n) = take_one(part, &s[at..]) else {
            return false;
        };
        at += n;
        at += skip_common(part, &s[at..]);
    }
    true
}

// How many common bytes there are at its front, where the part has all of them: they are most of what IRIs are made of.
fn skip_common(part: Part, s: &[u8]) -> usize
    ensures { Walked part s.now result }
{
    if !part.has_letters() {
        return 0;
    }
    let slashed = part.has_slash();
    for (i, b) in s.iter().enumerate() {
        if !is_common(*b, slashed) {
            return i;
        }
    }
    s.len()
}

// Letters and digits, "-" and ".", and "/" where so said.
#[tactic(auto, unfolding(crate::specs::Parts::common, spec::specs::Bytes::ascii, spec::specs::Bytes::byte, spec::specs::Bytes::among))]
fn is_common(b: u8, slashed: bool) -> bool
    ensures { result ≡ common slashed b }
{
    // Not one row of `||`: that costs six instructions more for each byte (measured).
    if is_alphanum(as_char(b)) {
        return true;
    }
    if b == b'/' {
        return slashed;
    }
    b == b'-' || b == b'.'
}

// How many bytes the first character of a part takes.
fn take_one(part: Part, s: &[u8]) -> Option<usize>
    ensures { MatchOption result (Taken part s.now 0) (λ n. (0 < n) × Taken part s.now n) }
{
    match utils::decode(s) {
        Decoded::Character(c, n) => {
            if part.allows(c) {
                Some(n)
            } else if is_escaped(part, s) {
                Some(3)
            } else {
                None
            }
        }
        Decoded::End => None,
        Decoded::Malformed => None,
    }
}

// "%" and two hexadecimal digits, where the part may have them.
#[tactic(auto, using(crate::proofs::Classes::escaped_law, crate::proofs::Classes::escaped_short))]
fn is_escaped(part: Part, s: &[u8]) -> bool
    ensures { result ≡ (escapes (class_of part) && escaped s.now) }
{
    match s {
        [first, a, b, ..] => part.has_escapes()
            && *first == b'%'
            && is_hex(as_char(*a))
            && is_hex(as_char(*b)),
        _ => false,
    }
}

impl Part {
    // Do all letters and digits, "-" and "." stand in it as they are?
    #[tactic(auto, unfolding(crate::specs::Parts::lettered))]
    fn has_letters(self) -> bool
        ensures { result ≡ lettered self }
    {
        !matches!(self, Part::Port | Part::Hex)
    }

    // And "/"?
    #[tactic(auto, unfolding(crate::specs::Parts::slashed))]
    fn has_slash(self) -> bool
        ensures { result ≡ slashed self }
    {
        matches!(self, Part::Path | Part::Query | Part::Fragment)
    }

    // Scheme, port and address have none.
    #[tactic(auto, unfolding(crate::specs::Parts::escapes, crate::specs::Parts::class_of, crate::specs::Parts::pchar, crate::specs::Parts::unreserved, crate::specs::Parts::delims))]
    fn has_escapes(self) -> bool
        ensures { result ≡ escapes (class_of self) }
    {
        !matches!(self, Part::Scheme | Part::Port | Part::Hex | Part::Later)
    }

    // Does a character stand in it as it is?
    #[tactic(auto, using(crate::proofs::Classes::colon_is, crate::proofs::Classes::slash_is), unfolding(crate::specs::Parts::allowed, crate::specs::Parts::class_of, crate::specs::Parts::delims, spec::specs::Bytes::ascii, spec::specs::Bytes::byte))]
    fn allows(self, c: u32) -> bool
        ensures { result ≡ allowed (class_of self) c }
    {
        match self {
            Part::Scheme => is_alphanum(c) || is_among(b"+-.", c),
            Part::Port => is_digit(c),
            Part::Hex => is_hex(c),
            Part::Later => is_alphanum(c)
                || is_among(b"-._~", c)
                || is_delim(c)
                || c == b':' as u32,
            Part::UserInfo => is_unreserved(c) || is_delim(c) || c == b':' as u32,
            Part::Name => is_unreserved(c) || is_delim(c),
            Part::Path => is_pchar(c) || c == b'/' as u32,
            Part::Query => is_pchar(c) || is_iprivate(c) || is_among(b"/?", c),
            Part::Fragment => is_pchar(c) || is_among(b"/?", c),
        }
    }
}

#[tactic(auto, unfolding(crate::specs::Parts::allowed, crate::specs::Parts::pchar, spec::specs::Bytes::ascii))]
fn is_pchar(c: u32) -> bool
    ensures { result ≡ allowed pchar c }
{
    is_unreserved(c) || is_delim(c) || is_among(b":@", c)
}

#[tactic(auto, unfolding(crate::specs::Parts::allowed, crate::specs::Parts::unreserved, spec::specs::Bytes::ascii))]
fn is_unreserved(c: u32) -> bool
    ensures { result ≡ allowed unreserved c }
{
    is_alphanum(c) || is_among(b"-._~", c) || is_ucschar(c)
}

fn is_delim(c: u32) -> bool
    ensures { result ≡ allowed delims c }
{
    is_among(b"!$&'()*+,;=", c)
}

#[tactic(auto, using(crate::proofs::Classes::alphanum_ranges))]
fn is_alphanum(c: u32) -> bool
    ensures { result ≡ is_alphanum c }
{
    if is_within(c, b'a' as u32, b'z' as u32) {
        return true;
    }
    if is_within(c, b'A' as u32, b'Z' as u32) {
        return true;
    }
    is_digit(c)
}

fn is_alpha(c: u32) -> bool
    ensures { result ≡ is_alpha c }
{
    is_within(lowered(c), b'a' as u32, b'z' as u32)
}

fn is_digit(c: u32) -> bool
    ensures { result ≡ is_digit c }
{
    is_within(c, b'0' as u32, b'9' as u32)
}

#[tactic(auto, unfolding(crate::specs::Parts::is_hex, spec::specs::Bytes::byte))]
fn is_hex(c: u32) -> bool
    ensures { result ≡ is_hex c }
{
    is_digit(c) || is_within(lowered(c), b'a' as u32, b'f' as u32)
}

fn is_ucschar(c: u32) -> bool
    ensures { result ≡ is_ucschar c }
{
    c >= 0xA0 && utils::in_pairs(&UCSCHAR, c)
}

fn is_iprivate(c: u32) -> bool
    ensures { result ≡ is_iprivate c }
{
    c >= 0xE000 && utils::in_pairs(&IPRIVATE, c)
}

// A character of a set.
fn is_among(set: &[u8], c: u32) -> bool
    ensures { result ≡ among set.now c }
{
    set.iter().any(|b| as_char(*b) == c)
}

#[tactic(auto, unfolding(spec::specs::Bytes::between))]
fn is_within(c: u32, low: u32, high: u32) -> bool
    ensures { result ≡ between low high c }
{
    low <= c && c <= high
}

// ASCII letters in lower case.
fn lowered(c: u32) -> u32
    ensures { result ≡ lower c }
{
    if is_within(c, b'A' as u32, b'Z' as u32) {
        32 + c
    } else {
        c
    }
}

// A byte as a character.
fn as_char(b: u8) -> u32
    ensures { result ≡ b }
{
    b as u32
}
