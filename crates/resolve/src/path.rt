// RFC 3986, section 5.2.4: dot segments are removed on the way. Each segment goes straight to its place, and ".." steps back.
ghost use Rattle.std.specs.Prelude.{◌≡◌, true, false, ◌+◌, ◌-◌, ◌^◌, ◌<◌, ◌≤◌, leb, length};
ghost use Rattle.copy.specs.Copy.{Wrote};
ghost use Rattle.spec.specs.Bytes.{split};
ghost use Rattle.spec.specs.Rfc3986.{without_last};
ghost use Rattle.resolve.specs.Texts.{Front, Plain};
ghost use Rattle.resolve.specs.Last.{through_last};
ghost use Rattle.resolve.specs.Segments.{appended, closed, output, outputs, begun_by, begun_after, starts_dot, starts_at};
ghost use Rattle.resolve.specs.Output.{Counts, Grown, Grows, Simple, passed, slashes_of, slash_text};

// The output buffer of the section: what stands in a lent area from some place on up to `end`, and behind it `beyond` segments that did not fit
// and stand nowhere.
#[derive(Clone, Copy, Debug, PartialEq, Eq)]
pub struct Output {
    pub end: usize,
    pub beyond: usize,
    // Has it had a segment? Each but the first has a "/" before it.
    pub begun: bool,
}

// The segments of `path`, each to its place. The buffer begins at `from`; with `more`, a "/" and another path come behind this one.
pub fn output_path(path: &[u8], more: bool, from: usize, out: Output, area: &mut [u8]) -> Output
    requires { Counts area.old out (length path.now + 1) × (from ≤ out.end) }
    ensures { Grown area.old area.new from out result (length path.now + 1) (begun_after out.begun (split 47 path.now)) (outputs out.begun more (split 47 path.now)) }
{
    if is_simple(path, out, area.len()) {
        return store(path, out, area);
    }
    output_segments(path, more, from, out, area)
}

// Can it go there at once: does all of it have room, and is there no dot segment?
fn is_simple(path: &[u8], out: Output, room: usize) -> bool
    requires { out.end ≤ room }
    ensures { result ≡ true → Simple path.now out room }
{
    if 0 < out.beyond {
        return false;
    }
    if !room_for(room - out.end, out.begun, path.len()) {
        return false;
    }
    !starts_dot(path)
}

// The same, one by one.
fn output_segments(path: &[u8], more: bool, from: usize, out: Output, area: &mut [u8]) -> Output
    requires { Counts area.old out (length path.now + 1) × (from ≤ out.end) }
    ensures { Grown area.old area.new from out result (length path.now + 1) (begun_after out.begun (split 47 path.now)) (outputs out.begun more (split 47 path.now)) }
{
    let mut o = out;
    // From "/" to "/", which no range counts: `find` seeks the next in blocks.
    let mut i: usize = 0;
    let mut end = copy::find(path, b'/');
    while end < path.len() {
        o = output_segment(&path[i..end], false, from, o, area);
        i = end + 1;
        end = i + copy::find(&path[i..], b'/');
    }
    output_segment(&path[i..end], !more, from, o, area)
}

// Does a segment begin with "."? A dot segment does.
fn starts_dot(path: &[u8]) -> bool
    ensures { result ≡ false → starts_dot true path.now ≡ false }
{
    // From "." to ".", as above.
    let mut at = copy::find(path, b'.');
    while at < path.len() {
        if begins_segment(path, at) {
            return true;
        }
        let next = at + 1;
        at = next + copy::find(&path[next..], b'.');
    }
    false
}

// Does a segment begin there?
fn begins_segment(path: &[u8], at: usize) -> bool
    requires { at ≤ length path.now }
    ensures { result ≡ starts_at path.now at }
{
    if at == 0 {
        return true;
    }
    path[at - 1] == b'/'
}

// One segment, by step 2, A to E.
fn output_segment(segment: &[u8], last: bool, from: usize, out: Output, area: &mut [u8]) -> Output
    requires { Counts area.old out 1 × (from ≤ out.end) × Plain segment.now }
    ensures { Grown area.old area.new from out result 1 (begun_by out.begun segment.now) (output out.begun last segment.now) }
{
    if copy::equal(b".", segment) {
        return close(last, out, area);
    }
    if copy::equal(b"..", segment) {
        return close(last, step_back(from, out, area), area);
    }
    append(segment, out, area)
}

// A dot segment at the end leaves the "/" that stood before it.
fn close(last: bool, out: Output, area: &mut [u8]) -> Output
    requires { Counts area.old out 1 }
    ensures { Grows area.old area.new out result 1 out.begun (closed out.begun last) }
{
    if !last {
        return out;
    }
    if !out.begun {
        return out;
    }
    append(b"", out, area)
}

// A segment, and the "/" before it unless it is the first.
fn append(segment: &[u8], out: Output, area: &mut [u8]) -> Output
    requires { Counts area.old out 1 × Plain segment.now }
    ensures { Grows area.old area.new out result 1 true (appended out.begun segment.now) }
{
    if 0 < out.beyond {
        return pass(out);
    }
    if !room_for(area.len() - out.end, out.begun, segment.len()) {
        return pass(out);
    }
    store(segment, out, area)
}

// The same of one or more segments that have room.
fn store(segments: &[u8], out: Output, area: &mut [u8]) -> Output
    requires { Counts area.old out 1 × (out.beyond ≤ 0) × (slashes_of out.begun + length segments.now ≤ length area.old - out.end) }
    ensures { Grows area.old area.new out result 1 true (appended out.begun segments.now) }
{
    let at = put_slash(area, out.end, out.begun);
    copy::put(area, at, segments);
    Output {
        end: at + segments.len(),
        beyond: 0,
        begun: true,
    }
}

// Is there room for so many bytes, and the "/" before them?
fn room_for(room: usize, begun: bool, size: usize) -> bool
    ensures { result ≡ leb (slashes_of begun + size) room }
{
    if begun {
        return size < room;
    }
    size <= room
}

// The "/" before a segment, if there is one; the answer is where it ends.
fn put_slash(area: &mut [u8], at: usize, begun: bool) -> usize
    requires { at + slashes_of begun ≤ length area.old }
    ensures { Wrote area.old area.new at result (slash_text begun) }
{
    if !begun {
        return at;
    }
    area[at] = b'/';
    at + 1
}

// A segment that has no room is counted.
fn pass(out: Output) -> Output
    requires { out.beyond + 1 < 2 ^ 64 }
    ensures { result ≡ passed out }
{
    Output {
        beyond: out.beyond + 1,
        begun: true,
        ..out
    }
}

// ".." takes the last segment away, and the "/" before it.
fn step_back(from: usize, out: Output, area: &[u8]) -> Output
    requires { (out.end ≤ length area.now) × (from ≤ out.end) }
    ensures { Grown area.now area.now from out result 0 out.begun without_last }
{
    if 0 < out.beyond {
        return Output {
            beyond: out.beyond - 1,
            ..out
        };
    }
    Output {
        end: from + without_last(&area[from..out.end]),
        beyond: 0,
        ..out
    }
}

// The bytes up to the last "/", with it.
pub fn through_last(s: &[u8]) -> usize
    ensures { Front s.now (through_last s.now) result }
{
    for i in (0..s.len()).rev() {
        if s[i] == b'/' {
            return i + 1;
        }
    }
    0
}

// The bytes before the last "/".
fn without_last(s: &[u8]) -> usize
    ensures { Front s.now (without_last s.now) result }
{
    let n = through_last(s);
    if n == 0 {
        return 0;
    }
    n - 1
}
