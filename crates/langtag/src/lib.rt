// Language tags: well-formed by RFC 5646, section 2.1, or not; and their letters in lower case.
#![tactic(auto)]

ghost use Rattle.std.specs.Prelude.{◌≡◌, map};
ghost use Rattle.spec.specs.Abnf.{lower};
ghost use Rattle.spec.specs.XmlLang.{verdict};
ghost use Rattle.copy.specs.Copy.{Put};
ghost use Rattle.langtag.specs.Machine.{fresh, longer, grown, kind, extensions, variants, regions, scripts, extlangs, languages, extended, private, follow, final, start, ended, step, composed, irregular};

use spec::Verdict;

// What a subtag can serve as, by its length and its bytes: letters and digits are counted, `Variant` is no row of letters,
// `Other` serves in extensions and private use alone, and `Bad` nowhere.
#[derive(Clone, Copy, PartialEq, Eq, Debug)]
enum Kind {
    X,
    Singleton,
    Letters2,
    Letters3,
    Letters4,
    Letters5,
    Digits3,
    Variant,
    Other,
    Bad,
}

// Where in the grammar a tag has come to, by its last subtag. After `Language3` up to three extlangs may follow, after
// `Region` variants; `Singleton` and `X` lack a subtag yet.
#[derive(Clone, Copy, PartialEq, Eq, Debug)]
enum Place {
    Start,
    Language3,
    Language2,
    Language1,
    Language,
    Script,
    Region,
    Singleton,
    Extension,
    X,
    Private,
    Nowhere,
}

// The subtag that is being read: its length (9 for any more), whether all of its bytes are letters, digits, either or `x`,
// and whether it begins with a digit.
#[derive(Clone, Copy)]
struct Subtag {
    length: u8,
    letters: bool,
    digits: bool,
    alphanum: bool,
    numbered: bool,
    x: bool,
}

// A tag that has been read up to some byte: the subtags before lead to `place`.
#[derive(Clone, Copy)]
struct Reader {
    place: Place,
    subtag: Subtag,
}

// The tags that are registered and not composed as the grammar says.
const IRREGULAR: [&[u8]; 17] = [
    b"en-gb-oed",
    b"i-ami",
    b"i-bnn",
    b"i-default",
    b"i-enochian",
    b"i-hak",
    b"i-klingon",
    b"i-lux",
    b"i-mingo",
    b"i-navajo",
    b"i-pwn",
    b"i-tao",
    b"i-tay",
    b"i-tsu",
    b"sgn-be-fr",
    b"sgn-be-nl",
    b"sgn-ch-de",
];

// Is the text a well-formed language tag, or the empty one, which clears?
pub fn parse(s: &[u8]) -> Verdict
    ensures { result ≡ verdict s.now }
{
    if s.is_empty() {
        return Verdict::Clears;
    }
    if composed(s) || irregular(s) {
        Verdict::Good
    } else {
        Verdict::Bad
    }
}

// `s` in lower case into `dst`, from `at` on. Where it does not fit, nothing changes and the answer is false
// (a bool, as `Put` of copy says and `start_tag` calls it).
pub fn lowercase_into(dst: &mut [u8], at: usize, s: &[u8]) -> bool
    ensures { Put dst.old at (map lower s.now) dst.new result }
{
    if !copy::put(dst, at, s) {
        return false;
    }
    let end = at + s.len();
    dst[at..end].make_ascii_lowercase();
    true
}

// Is the tag composed as `langtag` or `privateuse` of the grammar say?
fn composed(s: &[u8]) -> bool
    ensures { result ≡ composed s.now }
{
    let mut reader = Reader::start();
    for b in s {
        reader = reader.step(*b);
    }
    is_final(reader.ended())
}

// Is it one of those listed, letters in either case?
fn irregular(s: &[u8]) -> bool
    ensures { result ≡ irregular s.now }
{
    IRREGULAR.iter().any(|tag| s.eq_ignore_ascii_case(tag))
}

impl Reader {
    fn start() -> Reader
        ensures { result ≡ start }
    {
        Reader {
            place: Place::Start,
            subtag: Subtag::fresh(),
        }
    }

    // One byte more.
    fn step(self, b: u8) -> Reader
        ensures { result ≡ step self b }
    {
        if b == b'-' {
            Reader {
                place: self.ended(),
                subtag: Subtag::fresh(),
            }
        } else {
            Reader {
                place: self.place,
                subtag: self.subtag.grown(b),
            }
        }
    }

    // Where the tag leads if its last subtag ends here.
    fn ended(self) -> Place
        ensures { result ≡ ended self }
    {
        follow(self.place, self.subtag.kind())
    }
}

impl Subtag {
    // No byte yet: what is said of all its bytes holds.
    fn fresh() -> Subtag
        ensures { result ≡ fresh }
    {
        Subtag {
            length: 0,
            letters: true,
            digits: true,
            alphanum: true,
            numbered: false,
            x: true,
        }
    }

    // One byte more.
    fn grown(self, b: u8) -> Subtag
        ensures { result ≡ grown self b }
    {
        let letter = b.is_ascii_alphabetic();
        let digit = b.is_ascii_digit();
        let x = b.eq_ignore_ascii_case(&b'x');
        Subtag {
            length: longer(self.length),
            letters: self.letters & letter,
            digits: self.digits & digit,
            alphanum: self.alphanum & (letter | digit),
            numbered: if self.length == 0 {
                digit
            } else {
                self.numbered
            },
            x: self.x & x,
        }
    }

    fn kind(self) -> Kind
        ensures { result ≡ kind self }
    {
        if !self.alphanum {
            return Kind::Bad;
        }
        match self.length {
            1 if self.x => Kind::X,
            1 => Kind::Singleton,
            2 if self.letters => Kind::Letters2,
            2 => Kind::Other,
            3 if self.letters => Kind::Letters3,
            3 if self.digits => Kind::Digits3,
            3 => Kind::Other,
            4 if self.letters => Kind::Letters4,
            4 if self.numbered => Kind::Variant,
            4 => Kind::Other,
            5..=8 if self.letters => Kind::Letters5,
            5..=8 => Kind::Variant,
            _ => Kind::Bad,
        }
    }
}

// 9 stands for every length above 8, so that no tag is too long to count.
fn longer(n: u8) -> u8
    ensures { result ≡ longer n }
{
    if n <= 8 { n + 1 } else { 9 }
}

// ---- places

// May a tag end here?
fn is_final(q: Place) -> bool
    ensures { result ≡ final q }
{
    !matches!(
        q,
        Place::Start | Place::Singleton | Place::X | Place::Nowhere
    )
}

// Where a subtag of a kind leads from a place.
fn follow(q: Place, k: Kind) -> Place
    ensures { result ≡ follow q k }
{
    match q {
        Place::Start => languages(k),
        Place::Language3 => extlangs(Place::Language2, k),
        Place::Language2 => extlangs(Place::Language1, k),
        Place::Language1 => extlangs(Place::Language, k),
        Place::Language => scripts(k),
        Place::Script => regions(k),
        Place::Region => variants(k),
        Place::Singleton => extended(Place::Nowhere, k),
        Place::Extension => extended(extensions(k), k),
        Place::X | Place::Private => private(k),
        Place::Nowhere => Place::Nowhere,
    }
}

fn languages(k: Kind) -> Place
    ensures { result ≡ languages k }
{
    match k {
        Kind::X => Place::X,
        Kind::Letters2 | Kind::Letters3 => Place::Language3,
        Kind::Letters4 | Kind::Letters5 => Place::Language,
        _ => Place::Nowhere,
    }
}

// An extlang leads to `next`.
fn extlangs(next: Place, k: Kind) -> Place
    ensures { result ≡ extlangs next k }
{
    match k {
        Kind::Letters3 => next,
        _ => scripts(k),
    }
}

fn scripts(k: Kind) -> Place
    ensures { result ≡ scripts k }
{
    match k {
        Kind::Letters4 => Place::Script,
        _ => regions(k),
    }
}

fn regions(k: Kind) -> Place
    ensures { result ≡ regions k }
{
    match k {
        Kind::Letters2 | Kind::Digits3 => Place::Region,
        _ => variants(k),
    }
}

fn variants(k: Kind) -> Place
    ensures { result ≡ variants k }
{
    match k {
        Kind::Letters5 | Kind::Variant => Place::Region,
        _ => extensions(k),
    }
}

fn extensions(k: Kind) -> Place
    ensures { result ≡ extensions k }
{
    match k {
        Kind::X => Place::X,
        Kind::Singleton => Place::Singleton,
        _ => Place::Nowhere,
    }
}

// Inside an extension: a single byte, which begins no more of it, leads to `other`.
fn extended(other: Place, k: Kind) -> Place
    ensures { result ≡ extended other k }
{
    match k {
        Kind::X | Kind::Singleton | Kind::Bad => other,
        _ => Place::Extension,
    }
}

fn private(k: Kind) -> Place
    ensures { result ≡ private k }
{
    match k {
        Kind::Bad => Place::Nowhere,
        _ => Place::Private,
    }
}
