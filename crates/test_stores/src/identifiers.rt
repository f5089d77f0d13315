// The table of rdf:IDs at its bounds, printed: the last place and one more, the last byte and one more, and IDs that are there or not.
use crate::printing::{answer, number};
use resolve::Resolved;
use state_ids::{Filled, IdTable};
use std::io::Stdout;

pub fn try_all(out: Stdout) {
    fresh(out);
    places(out);
    bytes(out);
    strange(out);
}

// How many IDs there are, and how many bytes they have.
fn write_numbers(out: Stdout, table: Filled) {
    number(out, b"IDs", table.count);
    number(out, b"bytes", table.used);
}

// The longest ID of a number: four digits, and then what makes it long. Its beginnings are shorter IDs.
fn id_of(k: usize) -> [u8; Resolved::MOST_BYTES] {
    let mut id = [b'x'; Resolved::MOST_BYTES];
    label::write_u64_to_slice(k as u64, &mut id[..4]);
    id
}

// The ID of a number, entered with its first `n` bytes.
fn enter(
    table: Filled,
    at: &mut [u32; IdTable::MOST],
    len: &mut [u32; IdTable::MOST],
    store: &mut [u8],
    k: usize,
    n: usize,
) -> Option<Filled> {
    let id = id_of(k);
    if id.len() < n {
        return None;
    }
    state_ids::add(table.count, table.used, at, len, store, &id[0..n])
}

// The IDs of the numbers from 0 on, each with `n` bytes.
fn fill(
    at: &mut [u32; IdTable::MOST],
    len: &mut [u32; IdTable::MOST],
    store: &mut [u8],
    times: usize,
    n: usize,
) -> Filled {
    let mut table = Filled { count: 0, used: 0 };
    for k in 0..times {
        table = enter(table, at, len, store, k, n).unwrap_or(table);
    }
    table
}

// Is the ID of a number there, with its first `n` bytes? A table that is not valid is not searched.
fn seek(
    out: Stdout,
    what: &[u8],
    count: usize,
    used: usize,
    at: &[u32; IdTable::MOST],
    len: &[u32; IdTable::MOST],
    store: &[u8],
    k: usize,
    n: usize,
) {
    let id = id_of(k);
    if id.len() < n {
        return;
    }
    if !state_ids::valid(count, used, at, len, store.len()) {
        return;
    }
    answer(out, what, state_ids::find(count, at, len, store, &id[0..n]));
}

// A table as a document starts: nothing is in it, and it is valid beside a store of the right length alone.
fn fresh(out: Stdout) {
    let table = IdTable::new();
    let at = table.at;
    let len = table.len;
    let store = [0u8; IdTable::BYTES];
    answer(
        out,
        b"fresh, valid",
        state_ids::valid(table.count, table.used, &at, &len, store.len()),
    );
    answer(
        out,
        b"fresh, beside a shorter store",
        state_ids::valid(table.count, table.used, &at, &len, store.len() - 1),
    );
    seek(
        out,
        b"fresh, the empty ID",
        table.count,
        table.used,
        &at,
        &len,
        &store,
        0,
        0,
    );
}

// Every place, and one more.
fn places(out: Stdout) {
    let empty = IdTable::new();
    let mut at = empty.at;
    let mut len = empty.len;
    let mut store = [0u8; IdTable::BYTES];
    let most = fill(&mut at, &mut len, &mut store, IdTable::MOST - 1, 5);
    let last = enter(most, &mut at, &mut len, &mut store, IdTable::MOST - 1, 5);
    answer(out, b"the last place", last.is_some());
    let full = last.unwrap_or(most);
    write_numbers(out, full);
    let more = enter(full, &mut at, &mut len, &mut store, IdTable::MOST, 5);
    answer(out, b"one place more", more.is_some());
    let now = more.unwrap_or(full);
    write_numbers(out, now);
    seek_numbers(out, now, &at, &len, &store);
}

fn seek_numbers(
    out: Stdout,
    table: Filled,
    at: &[u32; IdTable::MOST],
    len: &[u32; IdTable::MOST],
    store: &[u8],
) {
    let count = table.count;
    let used = table.used;
    answer(
        out,
        b"valid",
        state_ids::valid(count, used, at, len, store.len()),
    );
    seek(out, b"the first ID", count, used, at, len, store, 0, 5);
    seek(out, b"the last ID", count, used, at, len, store, 511, 5);
    seek(out, b"an absent ID", count, used, at, len, store, 512, 5);
    seek(
        out,
        b"the front of an ID",
        count,
        used,
        at,
        len,
        store,
        511,
        4,
    );
    seek(
        out,
        b"an ID and one byte",
        count,
        used,
        at,
        len,
        store,
        511,
        6,
    );
}

// Every byte, and one more.
fn bytes(out: Stdout) {
    let empty = IdTable::new();
    let mut at = empty.at;
    let mut len = empty.len;
    let mut store = [0u8; IdTable::BYTES];
    let most = fill(&mut at, &mut len, &mut store, 31, Resolved::MOST_BYTES);
    let short = enter(
        most,
        &mut at,
        &mut len,
        &mut store,
        31,
        Resolved::MOST_BYTES - 1,
    )
    .unwrap_or(most);
    write_numbers(out, short);
    let over = enter(short, &mut at, &mut len, &mut store, 32, 2);
    answer(out, b"two bytes where one is left", over.is_some());
    let now = over.unwrap_or(short);
    let last = enter(now, &mut at, &mut len, &mut store, 33, 1);
    answer(out, b"the last byte", last.is_some());
    let full = last.unwrap_or(now);
    write_numbers(out, full);
    let more = enter(full, &mut at, &mut len, &mut store, 34, 1);
    answer(out, b"one byte more", more.is_some());
    seek_lengths(out, more.unwrap_or(full), &at, &len, &store);
}

fn seek_lengths(
    out: Stdout,
    table: Filled,
    at: &[u32; IdTable::MOST],
    len: &[u32; IdTable::MOST],
    store: &[u8],
) {
    let count = table.count;
    let used = table.used;
    answer(
        out,
        b"valid",
        state_ids::valid(count, used, at, len, store.len()),
    );
    seek(
        out,
        b"the first ID",
        count,
        used,
        at,
        len,
        store,
        0,
        Resolved::MOST_BYTES,
    );
    seek(
        out,
        b"the last long ID",
        count,
        used,
        at,
        len,
        store,
        31,
        Resolved::MOST_BYTES - 1,
    );
    seek(out, b"the last ID", count, used, at, len, store, 33, 1);
    seek(out, b"the refused ID", count, used, at, len, store, 32, 2);
}

// Tables that no call leaves, each beside one that is right.
fn strange(out: Stdout) {
    judge(
        out,
        b"empty IDs in every place",
        IdTable::MOST,
        0,
        0,
        0,
        0,
        0,
    );
    judge(out, b"one place too many", IdTable::MOST + 1, 0, 0, 0, 0, 0);
    judge(out, b"the longest span", 1, 1024, 0, 1024, 0, 0);
    judge(out, b"a span one too long", 1, 1025, 0, 1025, 0, 0);
    judge(out, b"two spans end to end", 2, 7, 0, 3, 3, 4);
    judge(out, b"an end one further", 2, 8, 0, 3, 3, 4);
    judge(out, b"two that overlap", 2, 6, 0, 3, 2, 4);
    judge(out, b"two with a gap", 2, 8, 0, 3, 4, 4);
    judge(out, b"a first span from 1", 1, 4, 1, 3, 0, 0);
}

// A table whose first two spans start and are as long as this.
fn judge(
    out: Stdout,
    what: &[u8],
    count: usize,
    used: usize,
    at0: u32,
    len0: u32,
    at1: u32,
    len1: u32,
) {
    let mut at = [0u32; IdTable::MOST];
    let mut len = [0u32; IdTable::MOST];
    at[0] = at0;
    len[0] = len0;
    at[1] = at1;
    len[1] = len1;
    answer(
        out,
        what,
        state_ids::valid(count, used, &at, &len, IdTable::BYTES),
    );
}
