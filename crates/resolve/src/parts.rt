// RFC 3986, appendix B: where the parts of a reference end.
ghost use Rattle.std.specs.Prelude.{◌≡◌, length};
ghost use Rattle.spec.specs.Bytes.{up_to, among};
ghost use Rattle.resolve.specs.Parts.{parts_of, scheme_text, marked_text};

// The ends of scheme, authority, path and query, each with its marks: `scheme:`, `//authority`, path, `?query`. What is left is `#fragment`.
#[derive(Clone, Copy)]
pub struct Parts {
    pub scheme: usize,
    pub authority: usize,
    pub path: usize,
    pub query: usize,
}

pub fn parse(s: &[u8]) -> Parts
    ensures { result ≡ parts_of s.now }
{
    let scheme = scheme(s);
    let authority = scheme + marked(&s[scheme..], b"//", b"/?#");
    let path = authority + until(&s[authority..], b"?#");
    let query = path + marked(&s[path..], b"?", b"#");
    Parts {
        scheme,
        authority,
        path,
        query,
    }
}

// The bytes of the scheme that `s` begins with, and of its ":".
fn scheme(s: &[u8]) -> usize
    ensures { result ≡ length (scheme_text s.now) }
{
    let n = until(s, b":/?#");
    if n == 0 {
        return 0;
    }
    if n == s.len() {
        return 0;
    }
    if s[n] != b':' {
        return 0;
    }
    n + 1
}

// The bytes of the part that `s` begins with, if it begins with the mark: up to the first byte of `stop` behind it.
fn marked(s: &[u8], mark: &[u8], stop: &[u8]) -> usize
    ensures { result ≡ length (marked_text mark.now stop.now s.now) }
{
    if !copy::begins(s, mark) {
        return 0;
    }
    let m = mark.len();
    m + until(&s[m..], stop)
}

// The bytes before the first one of the set.
pub fn until(s: &[u8], set: &[u8]) -> usize
    ensures { result ≡ length (up_to (among set.now) s.now) }
{
    for (i, b) in s.iter().enumerate() {
        if among(set, *b) {
            return i;
        }
    }
    s.len()
}

fn among(set: &[u8], b: u8) -> bool
    ensures { result ≡ among set.now b }
{
    set.contains(&b)
}
