// Repeated names among many attributes. Each is marked with its last bytes as two numbers, so that nearly all pairs are told apart by
// numbers, eight pairs at once.
ghost use Rattle.std.specs.Prelude.{◌≡◌, ◌++◌, ◌<◌, ◌≤◌, length};
ghost use Rattle.spec.specs.Bytes.{among};
ghost use Rattle.start_names.specs.Pairs.{behind_in, pairs};
ghost use Rattle.start_names.specs.Classes.{same_keys};
ghost use Rattle.start_form.specs.Marks.{byte_from_end, mark_of, Room, Marked, Marks, Clear, Next};

use crate::crowded::PLACES;
use copy::words::byte;
use start_names::{Class, XML};

// The bytes that a mark has.
const BYTES: usize = 8;

// Marks that are compared at once.
const BLOCK: usize = 8;

// Do two of the k attributes repeat, by what they are compared by?
pub fn repeated<'a>(
    scratch: &'a [u8],
    spans: &[u32],
    k: usize,
    work: &'a [u8],
    classes: &[usize],
) -> bool
    requires { k ≤ 8_192 }
    ensures { result ≡ pairs (same_keys scratch.now spans.now work.now classes.now) 0 k }
{
    let mut near = [0u64; PLACES];
    let mut far = [0u64; PLACES];
    mark_all(scratch, spans, k, work, classes, &mut near, &mut far);
    for j in 0..k {
        if repeated_behind(scratch, spans, k, work, classes, &near, &far, j) {
            return true;
        }
    }
    false
}

// The two marks of each of the k attributes: of its last bytes, and of those before them.
fn mark_all<'a>(
    scratch: &'a [u8],
    spans: &[u32],
    k: usize,
    work: &'a [u8],
    classes: &[usize],
    near: &mut [u64],
    far: &mut [u64],
)
    requires { Room k near.old far.old }
    ensures { Marks scratch.now spans.now work.now classes.now k near.old far.old near.new far.new }
{
    for j in 0..k {
        let class = Class::load(classes, j);
        let space = start_names::space_of(class, scratch, work, &XML);
        let name = start_names::tail_of(class, scratch, spans, j);
        near[j] = mark(space, name, 0);
        far[j] = mark(space, name, BYTES);
    }
}

// Does one of the k attributes behind attribute j repeat it? Only those with its marks are compared.
fn repeated_behind<'a>(
    scratch: &'a [u8],
    spans: &[u32],
    k: usize,
    work: &'a [u8],
    classes: &[usize],
    near: &[u64],
    far: &[u64],
    j: usize,
) -> bool
    requires { Marked scratch.now spans.now work.now classes.now near.now far.now k × (j < k) }
    ensures { result ≡ behind_in (same_keys scratch.now spans.now work.now classes.now) j k }
{
    let class = Class::load(classes, j);
    let space = start_names::space_of(class, scratch, work, &XML);
    let name = start_names::tail_of(class, scratch, spans, j);
    let mut i = next_alike(near, far, j, j + 1, k);
    // From one with its marks to the next.
    while i < k {
        if start_names::is_key(scratch, spans, work, classes, j, class, space, name, i) {
            return true;
        }
        i = next_alike(near, far, j, i + 1, k);
    }
    false
}

// The first from `from` on that has the marks of j, or `to`. It goes by one or by a block, which no `for` does.
fn next_alike(near: &[u64], far: &[u64], j: usize, from: usize, to: usize) -> usize
    requires { (j < to) × (from ≤ to) × Room to near.now far.now }
    ensures { Next near.now far.now j from to result }
{
    let mut i = from;
    while i < to {
        if is_clear(near, i, to, near[j]) {
            i += BLOCK;
            continue;
        }
        if (near[i] == near[j]) & (far[i] == far[j]) {
            return i;
        }
        i += 1;
    }
    i
}

// Are there as many as a block from `i` on, and none of them this mark?
fn is_clear(marks: &[u64], i: usize, to: usize, mark: u64) -> bool
    requires { (i ≤ to) × (to ≤ length marks.now) }
    ensures { Clear marks.now i to mark result }
{
    if to - i < BLOCK {
        return false;
    }
    let end = i + BLOCK;
    !has_mark(&marks[i..end], mark)
}

// Is one of a block this mark? No branch inside the loop, so that all are compared at once.
fn has_mark(block: &[u64], mark: u64) -> bool
    ensures { result ≡ among block.now mark }
{
    let mut found = false;
    for other in block {
        found |= *other == mark;
    }
    found
}

// The bytes of a text in two parts that `skip` bytes follow, as a number; 0 for each that is missing.
fn mark(front: &[u8], back: &[u8], skip: usize) -> u64
    requires { skip ≤ 8 }
    ensures { result ≡ mark_of (front.now ++ back.now) skip }
{
    let mut m: u64 = 0;
    for i in 0..BYTES {
        m = m % 72_057_594_037_927_936 * 256 + byte(byte_from_end(front, back, skip + i)) as u64;
    }
    m
}

// The byte that i bytes follow, 0 where there is none.
fn byte_from_end(front: &[u8], back: &[u8], i: usize) -> u8
    ensures { result ≡ byte_from_end (front.now ++ back.now) i }
{
    if i < back.len() {
        return back[back.len() - 1 - i];
    }
    let more = i - back.len();
    if more < front.len() {
        return front[front.len() - 1 - more];
    }
    0
}
