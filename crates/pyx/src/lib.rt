// Where events come in: the first event of the input, and its lines decoded.
#![tactic(auto)]

ghost use Rattle.std.specs.Prelude.{◌≡◌, true, false, ◌+◌, ◌*◌, ◌<◌, ◌≤◌, length, take, drop, get_or, eqb};
ghost use Rattle.spec.specs.Bytes.{up_to};
ghost use Rattle.spec.specs.PyxCut.{goes_on, may_go_on};
ghost use Rattle.spec.specs.Pyx.{read_lines, read_opening};
ghost use Rattle.spec.specs.Pyx as escapes;
ghost use Rattle.copy.specs.Copy.{Put};
ghost use Rattle.pyx.specs.First.{Cuts, in_line, at_line_end};
ghost use Rattle.pyx.specs.Lines.{lines_of, spaced, Begins, PlainLine};
ghost use Rattle.pyx.specs.Names.{Colons, Named, PlainNamed, Spelled, Spells};
ghost use Rattle.pyx.specs.Escapes.{Nexts, Unescapes, data_of};
ghost use Rattle.pyx.specs.Attributes.{Reads, Behind, Lays, Small, row};
ghost use Rattle.pyx.specs.Decode.{Says, Decodes, Fits};

// Why the rest of the input does not begin with an event.
#[derive(Clone, Copy, Debug, PartialEq, Eq)]
pub enum FirstError {
    // No complete event yet.
    Wait,
    // The last line has no end.
    Unended,
    // The event has more than `MOST_BYTES`.
    TooLong,
}

// An event, its texts in the scratch: how many bytes its text or name has; of a start tag also where the local part of
// its name begins, which is the place of the colon plus 1, or 0, and how many attributes it has. `Crowded` is a start tag
// with more attributes than the spans have places for.
#[derive(Clone, Copy, Debug, PartialEq, Eq)]
pub enum Event {
    Malformed,
    NoScratch,
    Instruction,
    Text(usize),
    Closing(usize),
    Opening(usize, usize, usize),
    Crowded,
}

// Why an event has no first line to go by: a line of it begins with a space, or it is no text or has no line.
#[derive(Clone, Copy, Debug, PartialEq, Eq)]
enum LineError {
    Spaced,
    NotText,
}

// What the spans tell of an attribute: where its name starts, the name's length, the place of its colon plus 1 or 0, and
// the length of the value behind the name.
#[derive(Clone, Copy)]
struct Entry {
    start: usize,
    name: usize,
    colon: usize,
    value: usize,
}

impl Event {
    // The bytes of an event.
    pub const MOST_BYTES: usize = 32_768;
}

// How many bytes the first event of the input has. No more than the longest event and one byte are looked at.
pub fn first_event(input: &[u8], last: bool) -> Result<usize, FirstError>
    ensures { Cuts result last input.now }
{
    if input.len() == 0 {
        return Err(FirstError::Wait);
    }
    let c = input[0];
    // With `is_empty` and `min` in place of these tests test_lines ran up to 3.8 % more instructions (92.8 to 96.3 million).
    let mut seen = input.len();
    if seen > Event::MOST_BYTES {
        seen = Event::MOST_BYTES + 1;
    }
    // From line to line, which no range counts: `find` seeks the next end in blocks.
    let mut at = 0;
    loop {
        let line = copy::find(&input[at..seen], b'\n');
        if line == seen - at {
            return within_line(seen, last);
        }
        at = at + line + 1;
        if at == seen {
            return at_line_end(seen, last, c);
        }
        if !goes_on(c, input[at]) {
            return Ok(at);
        }
    }
}

// The input behind the bytes that a step consumed.
pub fn rest(input: &[u8], consumed: usize) -> &[u8]
    ensures { result.now ≡ drop consumed input.now }
{
    &input[consumed.min(input.len())..]
}

// An event's lines decoded, names, values and data one behind the other from the start of the scratch. Of each attribute the
// spans tell where its name starts, the name's length, the place of its colon plus 1 or 0, and the length of the value behind it.
pub fn decode(event: &[u8], scratch: &mut [u8], spans: &mut [u32]) -> Event
    ensures { Decodes result event.now scratch.old scratch.new spans.old spans.new }
{
    if event.len() > Event::MOST_BYTES {
        return Event::NoScratch;
    }
    if event.len() > scratch.len() {
        return Event::NoScratch;
    }
    match first_line(event) {
        Ok(n) => by_first_line(event, n, scratch, spans),
        Err(LineError::Spaced) => Event::NoScratch,
        Err(LineError::NotText) => Event::Malformed,
    }
}

// May a line that begins with `b` go on with an event that begins with `c`?
fn goes_on(c: u8, b: u8) -> bool
    ensures { result ≡ goes_on c b }
{
    ((c == b'(') & (b == b'A')) | ((c == b'-') & (b == b'-'))
}

// All that is seen belongs to one event, and its last line has no end.
fn within_line(seen: usize, last: bool) -> Result<usize, FirstError>
    ensures { result ≡ in_line seen last }
{
    if seen > Event::MOST_BYTES {
        return Err(FirstError::TooLong);
    }
    if last {
        return Err(FirstError::Unended);
    }
    Err(FirstError::Wait)
}

// All that is seen belongs to one event that begins with `c`, and its last line has an end.
fn at_line_end(seen: usize, last: bool, c: u8) -> Result<usize, FirstError>
    ensures { result ≡ at_line_end seen last (may_go_on c) }
{
    if seen > Event::MOST_BYTES {
        return Err(FirstError::TooLong);
    }
    if last {
        return Ok(seen);
    }
    if (c == b'(') | (c == b'-') {
        return Err(FirstError::Wait);
    }
    Ok(seen)
}

// The first line of an event. Most are one line in ASCII, which one look at their bytes shows.
fn first_line(event: &[u8]) -> Result<usize, LineError>
    ensures { Begins result event.now }
{
    if is_plain_line(event) {
        return Ok(event.len() - 1);
    }
    let n = copy::find(event, b'\n');
    if has_spaced(event, n) {
        return Err(LineError::Spaced);
    }
    if !utils::is_text(event) {
        return Err(LineError::NotText);
    }
    if n == event.len() {
        return Err(LineError::NotText);
    }
    Ok(n)
}

// Is an event surely one line in ASCII without control characters?
fn is_plain_line(event: &[u8]) -> bool
    ensures { result ≡ true → PlainLine event.now }
{
    match event {
        [line @ .., b'\n'] => utils::is_printable(line),
        _ => false,
    }
}

// Does a line behind the first, which has `n` bytes, begin with a space? No event of `first_event` has such a line, and one line alone has none behind it.
fn has_spaced(event: &[u8], n: usize) -> bool
    requires { n ≡ length (up_to (λ c. eqb c 10) event.now) }
    ensures { result ≡ spaced event.now }
{
    if event.len() - n <= 1 {
        return false;
    }
    find_spaced(event)
}

// The same by a look at every byte. No branch inside the loop, so that many are compared at once.
fn find_spaced(event: &[u8]) -> bool
    ensures { result ≡ spaced event.now }
{
    let mut found = false;
    for i in 1..event.len() {
        found = found | ((event[i - 1] == b'\n') & (event[i] == b' '));
    }
    found
}

// An event by the first byte of its first line, which has `n` bytes.
fn by_first_line(event: &[u8], n: usize, scratch: &mut [u8], spans: &mut [u32]) -> Event
    requires { Fits event.now scratch.old n }
    ensures { Says result (read_lines (lines_of event.now)) false (length event.now) scratch.old scratch.new spans.old spans.new }
{
    if n == 0 {
        return Event::Malformed;
    }
    match event[0] {
        b'(' => opening(event, n, scratch, spans),
        b')' => match put_name(&event[1..n], scratch, 0) {
            Some(_) => Event::Closing(n - 1),
            None => Event::Malformed,
        },
        b'-' => match put_text(event, n, scratch) {
            Some(to) => Event::Text(to),
            None => Event::Malformed,
        },
        b'?' => Event::Instruction,
        _ => Event::Malformed,
    }
}

// A start tag, whose first line has `n` bytes.
fn opening(event: &[u8], n: usize, scratch: &mut [u8], spans: &mut [u32]) -> Event
    requires fits { Fits event.now scratch.old n }
    requires n_nonzero { 0 < n }
    ensures { Says result (read_opening (take n event.now) (lines_of (drop (n + 1) event.now))) false (length event.now) scratch.old scratch.new spans.old spans.new }
{
    let Some(colon) = put_name(&event[1..n], scratch, 0) else {
        return Event::Malformed;
    };
    let Some(k) = put_attributes(event, n + 1, scratch, n - 1, spans) else {
        return Event::Malformed;
    };
    if k > spans.len() / 4 {
        return Event::Crowded;
    }
    Event::Opening(n - 1, colon, k)
}

// The attribute lines from `from` on, their names and values into the scratch behind `size` bytes, and how many they are,
// if all are attribute lines.
fn put_attributes(
    event: &[u8],
    from: usize,
    scratch: &mut [u8],
    size: usize,
    spans: &mut [u32],
) -> Option<usize>
    requires { Behind event.now scratch.old from size }
    ensures { Lays result event.now from size scratch.old scratch.new spans.old spans.new }
{
    // From line to line, as in `first_event`.
    let mut at = from;
    let mut used = size;
    let mut k: usize = 0;
    while at < event.len() {
        let n = copy::find(&event[at..], b'\n');
        let end = at + n;
        if end == event.len() {
            return Some(k);
        }
        let entry = put_attribute(&event[at..end], scratch, used)?;
        enter(spans, k, entry);
        used = used + entry.name + entry.value;
        k += 1;
        at = end + 1;
    }
    Some(k)
}

// An attribute line, its name and value into the scratch, if it is one.
fn put_attribute(line: &[u8], scratch: &mut [u8], at: usize) -> Option<Entry>
    requires line_value { eqb (get_or line.now 0 0) 32 ≡ false }
    requires line_in_bounds { at + length line.now ≤ length scratch.old }
    ensures { Reads result line.now scratch.old scratch.new at }
{
    if line.len() == 0 {
        return None;
    }
    let n = copy::find(&line[1..], b' ');
    let end = 1 + n;
    if end == line.len() {
        return None;
    }
    let colon = put_name(&line[1..end], scratch, at)?;
    let value = n + 2;
    let to = unescape(&line[value..], scratch, at + n)?;
    Some(Entry {
        start: at,
        name: n,
        colon,
        value: to - (at + n),
    })
}

// An attribute into the spans' place `k`, if they have it.
fn enter(spans: &mut [u32], k: usize, entry: Entry) -> bool
    requires { Small entry.start entry.name entry.colon entry.value }
    ensures { Put spans.old (k * 4) (row entry.start entry.name entry.colon entry.value) spans.new result }
{
    if spans.len() / 4 <= k {
        return false;
    }
    let at = k * 4;
    spans[at] = entry.start as u32;
    spans[at + 1] = entry.name as u32;
    spans[at + 2] = entry.colon as u32;
    spans[at + 3] = entry.value as u32;
    true
}

// The data of an event's lines into the scratch, joined, and where they end, if no backslash is wrong.
// The first has `n` bytes; alone it needs no joining.
fn put_text(event: &[u8], n: usize, scratch: &mut [u8]) -> Option<usize>
    requires fits { Fits event.now scratch.old n }
    requires n_nonzero { 0 < n }
    ensures { Unescapes result (data_of event.now) (length event.now) scratch.old scratch.new 0 }
{
    if n + 1 == event.len() {
        return unescape(&event[1..n], scratch, 0);
    }
    put_lines(event, scratch)
}

// The data of any number of lines into the scratch, joined.
fn put_lines(event: &[u8], scratch: &mut [u8]) -> Option<usize>
    requires { length event.now ≤ length scratch.old }
    ensures { Unescapes result (data_of event.now) (length event.now) scratch.old scratch.new 0 }
{
    // From line to line, as in `first_event`.
    let mut at = 0;
    let mut used = 0;
    while at < event.len() {
        let n = copy::find(&event[at..], b'\n');
        let end = at + n;
        if end == event.len() {
            return Some(used);
        }
        used = put_data(&event[at..end], scratch, used)?;
        at = end + 1;
    }
    Some(used)
}

// The data behind a line's first byte into the scratch.
fn put_data(line: &[u8], scratch: &mut [u8], at: usize) -> Option<usize>
    requires { at + length line.now ≤ length scratch.old }
    ensures { Unescapes result (escapes.unescape (drop 1 line.now)) (length (drop 1 line.now)) scratch.old scratch.new at }
{
    match line {
        [_, data @ ..] => unescape(data, scratch, at),
        [] => Some(at),
    }
}

// A name into the scratch, and the place of its colon plus 1 or 0, which is where its local part begins.
// Most are of ASCII alone.
fn put_name(name: &[u8], scratch: &mut [u8], at: usize) -> Option<usize>
    requires { at + length name.now ≤ length scratch.old }
    ensures { Named result name.now scratch.old scratch.new at }
{
    match put_plain_name(name, scratch, at) {
        Some(colon) => Some(colon),
        None => put_any_name(name, scratch, at),
    }
}

// A name in ASCII, checked and copied in one pass. `part` is where its prefix or its local name begins.
fn put_plain_name(name: &[u8], scratch: &mut [u8], at: usize) -> Option<usize>
    requires { at + length name.now ≤ length scratch.old }
    ensures { PlainNamed result name.now scratch.old scratch.new at }
{
    let mut part = 0;
    for i in 0..name.len() {
        part = next_part(name, i, part)?;
        scratch[at + i] = name[i];
    }
    if name.len() == part {
        return None;
    }
    Some(part)
}

// Where the part of a name in ASCII begins behind its byte at `i`, if this may stand there.
fn next_part(name: &[u8], i: usize, part: usize) -> Option<usize>
    requires i_in_bounds { i < length name.now }
    requires spelled { Spelled name.now i part }
    ensures { Spells result name.now i }
{
    let b = name[i];
    if utils::is_plain_start(b) {
        return Some(part);
    }
    if i == part {
        return None;
    }
    if b == b':' {
        let first = part == 0;
        if first {
            return Some(i + 1);
        }
        return None;
    }
    if utils::is_plain_name(b) {
        return Some(part);
    }
    None
}

// Any name, checked and then copied.
fn put_any_name(name: &[u8], scratch: &mut [u8], at: usize) -> Option<usize>
    requires { at + length name.now ≤ length scratch.old }
    ensures { Named result name.now scratch.old scratch.new at }
{
    let colon = colon_of(name)?;
    copy::put(scratch, at, name);
    Some(colon)
}

fn colon_of(name: &[u8]) -> Option<usize>
    ensures { Colons result name.now }
{
    match utils::qname(name) {
        utils::Name::NotName => None,
        utils::Name::Local => Some(0),
        utils::Name::Prefixed(k) => Some(k + 1),
    }
}

// A value or data, decoded into the scratch, and where it ends, if no backslash is wrong.
// Without a backslash it is copied as it is.
fn unescape(s: &[u8], scratch: &mut [u8], at: usize) -> Option<usize>
    requires { at + length s.now ≤ length scratch.old }
    ensures { Unescapes result (escapes.unescape s.now) (length s.now) scratch.old scratch.new at }
{
    let n = copy::find(s, b'\\');
    if n == s.len() {
        copy::put(scratch, at, s);
        return Some(at + n);
    }
    unescape_bytes(s, scratch, at)
}

// A value or data, decoded byte by byte.
fn unescape_bytes(s: &[u8], scratch: &mut [u8], at: usize) -> Option<usize>
    requires { at + length s.now ≤ length scratch.old }
    ensures { Unescapes result (escapes.unescape s.now) (length s.now) scratch.old scratch.new at }
{
    // One or two bytes stand for one, so no range counts them.
    let mut i = 0;
    let mut to = at;
    while i < s.len() {
        let (b, n) = next_byte(s, i)?;
        scratch[to] = b;
        to += 1;
        i += n;
    }
    Some(to)
}

// The byte that stands at `i`, escaped or not, and how many bytes stand for it; none behind a wrong backslash.
fn next_byte(s: &[u8], i: usize) -> Option<(u8, usize)>
    requires { i < length s.now }
    ensures { Nexts result (drop i s.now) }
{
    let b = s[i];
    if b != b'\\' {
        return Some((b, 1));
    }
    if s.len() - i < 2 {
        return None;
    }
    match s[i + 1] {
        b'n' => Some((b'\n', 2)),
        b't' => Some((b'\t', 2)),
        b'\\' => Some((b'\\', 2)),
        _ => None,
    }
}
