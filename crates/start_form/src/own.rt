// The classes of many attributes' names. The tag's own declarations are laid out as rows first, so that a prefix is
// looked for among them alone and not among all attributes.
ghost use Rattle.std.specs.Prelude.{◌/◌, ◌≤◌, ◌<◌, ◌≡◌, length};
ghost use Rattle.start_names.specs.Tag.{name_at, colon_at, front_of, attribute_at};
ghost use Rattle.start_names.specs.Found.{scope};
ghost use Rattle.start_names.specs.Classes.{Says};
ghost use Rattle.start_form.specs.Own.{Within, WithinAt, own_row, Owns, Finds, Classes};

use crate::crowded::PLACES;
use start_names::{Class, Found};
use state_words::Row;

// Do two of the k attributes repeat, by expanded name?
pub fn repeated_expanded<'a>(
    scratch: &'a [u8],
    spans: &[u32],
    k: usize,
    work: &'a [u8],
    bindings: &[u32],
    n: usize,
) -> bool
    requires { Within spans.now k × (k ≤ 8_192) }
    ensures { Finds scratch.now spans.now k
        work.now bindings.now n result }
{
    let mut rows = [0u32; PLACES * Row::WORDS];
    let d = own_rows(scratch, spans, k, &mut rows);
    let mut classes = [0usize; PLACES * Class::WORDS];
    classify(scratch, spans, k, &rows, d, work, bindings, n, &mut classes);
    crate::marks::repeated(scratch, spans, k, work, &classes)
}

// The tag's own declarations as rows of bindings in the scratch, the last one first: how many they are.
fn own_rows(scratch: &[u8], spans: &[u32], k: usize, rows: &mut [u32]) -> usize
    requires { Within spans.now k × (k ≤ length rows.old / 3) }
    ensures { Owns scratch.now spans.now k rows.old rows.new result }
{
    let mut d: usize = 0;
    for j in (0..k).rev() {
        if start_names::is_declaration(start_names::name_of(scratch, spans, j)) {
            Row::store(rows, d, own_row(spans, j));
            d += 1;
        }
    }
    d
}

// The row of declaration j: the prefix stands behind `xmlns:`, the namespace behind the name.
fn own_row(spans: &[u32], j: usize) -> Row
    requires { WithinAt spans.now j }
    ensures { result ≡ own_row spans.now j }
{
    let at = start_names::attribute_word(spans, j, 0);
    let n = start_names::attribute_word(spans, j, 1);
    let v = start_names::attribute_word(spans, j, 3);
    if n < 6 {
        return Row {
            at: (at + n) as u32,
            name: 0,
            more: v as u32,
        };
    }
    Row {
        at: (at + 6) as u32,
        name: (n - 6) as u32,
        more: v as u32,
    }
}

// The class of each of the first k attributes, into `classes`; `rows` are the tag's own d declarations. Apart from that of
// start_names, as it looks for a prefix in rows and not among all attributes.
fn classify(
    scratch: &[u8],
    spans: &[u32],
    k: usize,
    rows: &[u32],
    d: usize,
    work: &[u8],
    bindings: &[u32],
    n: usize,
    classes: &mut [usize],
)
    requires { Owns scratch.now spans.now k rows.now rows.now d × (k ≤ length classes.old / 3) }
    ensures { Classes scratch.now spans.now k
        work.now bindings.now n classes.old classes.new }
{
    for j in 0..k {
        let class = class_of(scratch, spans, k, rows, d, work, bindings, n, j);
        Class::store(classes, j, class);
    }
}

// The class of attribute j of k.
fn class_of(
    scratch: &[u8],
    spans: &[u32],
    k: usize,
    rows: &[u32],
    d: usize,
    work: &[u8],
    bindings: &[u32],
    n: usize,
    j: usize,
) -> Class
    requires { Owns scratch.now spans.now k rows.now rows.now d }
    ensures { Says result scratch.now work.now
        (scope scratch.now spans.now k work.now bindings.now n)
        (attribute_at scratch.now spans.now j)
        (front_of (colon_at spans.now j) (name_at scratch.now spans.now j)) }
{
    if start_names::is_declaration(start_names::name_of(scratch, spans, j)) {
        return Class::Declaration;
    }
    let prefix = start_names::prefix_of(scratch, spans, j);
    if prefix.len() == 0 {
        return Class::Unprefixed;
    }
    let own = start_names::lookup(prefix, scratch, spans, 0, scratch, rows, d);
    match own {
        Found::Unknown => Class::from(start_names::lookup(
            prefix, scratch, spans, 0, work, bindings, n,
        )),
        Found::Xml => Class::Xml,
        Found::Own(at, size) => Class::Own(at, size),
        Found::Held(at, size) => Class::Own(at, size),
    }
}
