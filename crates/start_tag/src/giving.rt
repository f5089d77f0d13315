// What a start tag that was read says, each thing where it stands.
ghost use Rattle.std.specs.Prelude.{◌≡◌, ◌*◌, ◌≤◌, length};
ghost use Rattle.start_tag.specs.Giving.{made_at, value_at_place, Gives};

use crate::reading::Tag;
use copy::words::wide;
use start_element::Source;
use start_plan::Given;
use start_references::reference::{Area, Reference};

// The parts that a plan is made of.
pub fn given(t: Tag, spans: &[u32], k: usize) -> Given
    requires { k * 4 ≤ length spans.now }
    ensures { Gives t spans.now k result }
{
    let named = t.id;
    let described = t.about;
    let object = t.resource;
    let typed = t.datatype;
    let base = value(spans, t.base, k);
    let tag = t.language;
    let node = value(spans, t.node, k);
    let id = made(Area::ID, named);
    let about = made(Area::ABOUT, described);
    let resource = made(Area::RESOURCE, object);
    let datatype = made(Area::DATATYPE, typed);
    Given {
        base,
        tag,
        node,
        id,
        about,
        resource,
        datatype,
    }
}

// A reference that was resolved, at its place.
pub fn made(at: usize, reference: Reference) -> Source
    ensures { result ≡ made_at at reference }
{
    match reference {
        Reference::Missing => Source::Missing,
        Reference::Bad => Source::Missing,
        Reference::Long => Source::Missing,
        Reference::Made(n) => Source::Made(at, n),
    }
}

// The value of attribute j, where there is one.
fn value(spans: &[u32], j: usize, k: usize) -> Source
    requires { k * 4 ≤ length spans.now }
    ensures { result ≡ value_at_place spans.now j k }
{
    if k <= j {
        return Source::Missing;
    }
    let from = j * 4;
    let at = wide(spans[from]) + wide(spans[from + 1]);
    Source::Own(at, wide(spans[from + 3]))
}
