// The rdf:IDs that accepted events have used, as spans of a lent store. A type of its own: it knows nothing of the rest of the reader's state.
#![tactic(auto)]

ghost use Rattle.std.specs.Prelude.{◌≡◌, ◌+◌, ◌≤◌, length};
ghost use Rattle.spec.specs.Bytes.{same};
ghost use Rattle.copy.specs.Copy.{part};
ghost use Rattle.state_ids.specs.Ids.{valid_ids, room_for, SpansIn, found};
ghost use Rattle.state_ids.specs.Adding.{Fresh, Adds};

use copy::words::wide;
use resolve::Resolved;

// Place `i` holds the ID that lies in the store from `at[i]` on and is `len[i]` bytes long. `count` places are in use, the oldest first;
// their bytes lie end to end and fill the store up to `used`.
#[derive(Clone, Copy)]
pub struct IdTable {
    pub count: usize,
    pub used: usize,
    pub at: [u32; IdTable::MOST],
    pub len: [u32; IdTable::MOST],
}

// How far a table is filled: the places in use, and the bytes of their IDs.
#[derive(Clone, Copy)]
pub struct Filled {
    pub count: usize,
    pub used: usize,
}

impl IdTable {
    // The IDs of a document: the places of the table.
    pub const MOST: usize = 512;
    // All of them together, in bytes: the store is exactly as long.
    pub const BYTES: usize = 32_768;

    // Every place empty, as a document starts.
    pub fn new() -> Self
        ensures { Fresh result }
    {
        Self {
            count: 0,
            used: 0,
            at: [0; Self::MOST],
            len: [0; Self::MOST],
        }
    }
}

// Is the table one to go on from, beside a store of `n` bytes? docs/STATE.md has the rules.
pub fn valid(
    count: usize,
    used: usize,
    at: &[u32; IdTable::MOST],
    len: &[u32; IdTable::MOST],
    n: usize,
) -> bool
    ensures { result ≡ valid_ids count used at.now len.now n }
{
    if n != IdTable::BYTES {
        return false;
    }
    if IdTable::MOST < count {
        return false;
    }
    if IdTable::BYTES < used {
        return false;
    }
    let mut end = used;
    for i in (0..count).rev() {
        let start = wide(at[i]);
        let size = wide(len[i]);
        if Resolved::MOST_BYTES < size {
            return false;
        }
        if start + size != end {
            return false;
        }
        end = start;
    }
    end == 0
}

// Was this ID used before? The newest is compared first. Never inlined, so that its loop has the registers to itself, whoever calls it.
#[inline(never)]
pub fn find(
    count: usize,
    at: &[u32; IdTable::MOST],
    len: &[u32; IdTable::MOST],
    store: &[u8],
    id: &[u8],
) -> bool
    requires { SpansIn count at.now len.now store.now }
    ensures { result ≡ found count at.now len.now store.now id.now }
{
    if IdTable::MOST < count {
        return false;
    }
    for i in (0..count).rev() {
        let start = wide(at[i]);
        let size = wide(len[i]);
        if is_at(store, start, size, id) {
            return true;
        }
    }
    false
}

// Is there room for one more ID, of `n` bytes?
pub fn room(count: usize, used: usize, n: usize) -> bool
    ensures { result ≡ room_for count used n }
{
    if IdTable::MOST <= count {
        return false;
    }
    if Resolved::MOST_BYTES < n {
        return false;
    }
    if IdTable::BYTES < used {
        return false;
    }
    n <= IdTable::BYTES - used
}

// Enters an ID as the newest, and says how far the table is filled then. Where there is no room, nothing changes.
pub fn add(
    count: usize,
    used: usize,
    at: &mut [u32; IdTable::MOST],
    len: &mut [u32; IdTable::MOST],
    store: &mut [u8],
    id: &[u8],
) -> Option<Filled>
    ensures { Adds count used at.old len.old store.old id.now result at.new len.new store.new }
{
    let n = id.len();
    if !room(count, used, n) {
        return None;
    }
    if !copy::put(store, used, id) {
        return None;
    }
    at[count] = used as u32;
    len[count] = n as u32;
    Some(Filled {
        count: count + 1,
        used: used + n,
    })
}

// Are the `n` bytes of the store from `from` on this ID?
fn is_at(store: &[u8], from: usize, n: usize, id: &[u8]) -> bool
    requires { from + n ≤ length store.now }
    ensures { result ≡ same id.now (part store.now from n) }
{
    copy::equal_from_end(id, &store[from..from + n])
}
