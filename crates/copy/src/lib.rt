// Bytes stored, compared and looked for in lent slices. Every call answers on every input; the laws of what it did are in specs/.
#![tactic(auto)]

ghost use Rattle.std.specs.Prelude.{◌≡◌, ◌+◌, ◌<◌, ◌≤◌, length, eqb};
ghost use Rattle.spec.specs.Bytes.{same, begins, up_to, among};
ghost use Rattle.copy.specs.Copy.{part, Put};
ghost use Rattle.copy.specs.Scan.{Sought};

pub mod words;

// All of `src` into `dst`, from `at` on. Where it does not fit, nothing changes and the answer is false.
pub fn put<T: Copy>(dst: &mut [T], at: usize, src: &[T]) -> bool
    ensures { Put dst.old at src.now dst.new result }
{
    if dst.len() < at {
        return false;
    }
    if dst.len() - at < src.len() {
        return false;
    }
    store(&mut dst[at..at + src.len()], src);
    true
}

// All of `src` into a slice as long, by the longest arrays that fit. Where the length is no constant, `copy_from_slice` makes a library for C
// ask for `memmove`, and a loop over elements asks at each run whether the two lie apart.
fn store<T: Copy>(dst: &mut [T], src: &[T])
    requires { length dst.old ≡ length src.now }
    ensures { dst.new ≡ src.now }
{
    let n = src.len();
    if 16 <= n {
        store_arrays::<T, 16>(dst, src);
    } else if 8 <= n {
        store_arrays::<T, 8>(dst, src);
    } else if 4 <= n {
        store_arrays::<T, 4>(dst, src);
    } else if 2 <= n {
        store_arrays::<T, 2>(dst, src);
    } else if 1 <= n {
        store_arrays::<T, 1>(dst, src);
    }
}

// Array after array; the last one ends where the two end, and may lie over the end of the one before it.
fn store_arrays<T: Copy, const N: usize>(dst: &mut [T], src: &[T])
    requires as_long { length dst.old ≡ length src.now }
    requires some { 0 < N }
    requires fits { N ≤ length src.now }
    ensures { dst.new ≡ src.now }
{
    let last = src.len() - N;
    let mut i = 0;
    while i < last {
        store_array::<T, N>(&mut dst[i..i + N], &src[i..i + N]);
        i += N;
    }
    store_array::<T, N>(&mut dst[last..], &src[last..]);
}

// All of `src` where its length is a constant, as one array.
fn store_array<T: Copy, const N: usize>(dst: &mut [T], src: &[T])
    requires to { length dst.old ≡ N }
    requires from { length src.now ≡ N }
    ensures { dst.new ≡ src.now }
{
    if let Some(from) = src.as_array::<N>() {
        if let Some(to) = dst.as_mut_array::<N>() {
            *to = *from;
        }
    }
}

// The `n` bytes of `s` from `at` on; of a piece that runs past the end, what there is of it.
pub fn piece(s: &[u8], at: usize, n: usize) -> &[u8]
    ensures { result.now ≡ part s.now at n }
{
    if s.len() < at {
        return &s[0..0];
    }
    if s.len() - at < n {
        return &s[at..];
    }
    let to = at + n;
    &s[at..to]
}

// Are the two the same bytes?
pub fn equal(a: &[u8], b: &[u8]) -> bool
    ensures { result ≡ same a.now b.now }
{
    a == b
}

// The same, for texts that often begin alike: the last eight bytes, which tell most apart, come first, then the first eight, by which bases
// differ, and then those before the last, eight at a time. Of a shorter text the last four come first.
pub fn equal_from_end(a: &[u8], b: &[u8]) -> bool
    ensures { result ≡ same a.now b.now }
{
    if a.len() != b.len() {
        return false;
    }
    if a.len() < 8 {
        return equal_short(a, b);
    }
    let mut n = a.len() - 8;
    if !same_array::<8>(a, b, n) {
        return false;
    }
    if !same_array::<8>(a, b, 0) {
        return false;
    }
    while 8 < n {
        n -= 8;
        if !same_array::<8>(a, b, n) {
            return false;
        }
    }
    true
}

// The same of fewer than eight bytes: the last four, and the first four, which lie over them.
fn equal_short(a: &[u8], b: &[u8]) -> bool
    requires as_long { length a.now ≡ length b.now }
    requires short { length a.now < 8 }
    ensures { result ≡ same a.now b.now }
{
    if a.len() < 4 {
        return a == b;
    }
    if !same_array::<4>(a, b, a.len() - 4) {
        return false;
    }
    same_array::<4>(a, b, 0)
}

// Are the `N` bytes from `at` on the same? As arrays, which are compared at once.
fn same_array<const N: usize>(a: &[u8], b: &[u8], at: usize) -> bool
    requires of_a { at + N ≤ length a.now }
    requires of_b { at + N ≤ length b.now }
    ensures { result ≡ same (part a.now at N) (part b.now at N) }
{
    a[at..at + N].as_array::<N>() == b[at..at + N].as_array::<N>()
}

// Does `s` begin with `front`? As `starts_with`, which executes 15 instructions where this executes 7, at a short constant.
pub fn begins(s: &[u8], front: &[u8]) -> bool
    ensures { result ≡ begins front.now s.now }
{
    front.len() <= s.len() && front == &s[..front.len()]
}

// Where the first `b` stands: the number of bytes before it, or the length where there is none.
// In blocks, since `s.iter().position(..)` alone executes 80 instructions on lines of 16 bytes, and this 44.
pub fn find(s: &[u8], b: u8) -> usize
    ensures { result ≡ length (up_to (λ c. eqb c b) s.now) }
{
    for i in skip_blocks(s, b)..s.len() {
        if s[i] == b {
            return i;
        }
    }
    s.len()
}

// How many bytes stand at the front in blocks of eight that have no `b`. As a `for` over starts of blocks it is no plainer.
fn skip_blocks(s: &[u8], b: u8) -> usize
    ensures { Sought (λ c. eqb c b) s.now result }
{
    let mut i = 0;
    while 8 <= s.len() - i {
        let end = i + 8;
        if block_has(&s[i..end], b) {
            return i;
        }
        i = end;
    }
    i
}

// Is `b` among the bytes of a block? No branch from byte to byte, so that they are compared at once.
fn block_has(block: &[u8], b: u8) -> bool
    ensures { result ≡ among block.now b }
{
    block.iter().fold(false, |found, c| found | (*c == b))
}
