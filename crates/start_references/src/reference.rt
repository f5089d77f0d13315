// References of a start tag, resolved into the area that is lent for an event.
ghost use Rattle.std.specs.Prelude.{◌≡◌, true, ◌<◌, ◌≤◌, length};
ghost use Rattle.std.proofs.Math.Option.{none, some};
ghost use Rattle.spec.specs.Rfc3987.{is_iri_reference};
ghost use Rattle.spec.specs.StartTag.{resolved, with_hash};
ghost use Rattle.start_references.specs.Reference.{text_if, Resolves, Room, RoomForId, is_bad, is_long};

use pyx::Event;
use resolve::{ResolveError, Resolved};
use state::Registers;

// What is made for an event stands in one lent area, each thing at its place. Resolving takes a few bytes more, so later places are written later.
#[derive(Clone, Copy)]
pub struct Area {}

// A reference, resolved: missing; no IRI comes of it; longer than an IRI may be; or in the area, of this many bytes.
// Four ways, asked for one by one: what is too long is no refusal before all else was judged.
#[derive(Clone, Copy, PartialEq, Eq, Debug)]
pub enum Reference {
    Missing,
    Bad,
    Long,
    Made(usize),
}

// "#" and the longest value of an event; "#" and a short one.
const HASHED: usize = Event::MOST_BYTES + 1;

const FEW: usize = 256;

impl Area {
    // The whole, in bytes.
    pub const BYTES: usize = Registers::MOST_HELD;
    // Resolved: rdf:ID, rdf:about, rdf:resource, rdf:datatype, rdf:type.
    pub const ID: usize = 0;

    pub const ABOUT: usize = Resolved::MOST_BYTES;

    pub const RESOURCE: usize = Self::ABOUT + Resolved::MOST_BYTES;

    pub const DATATYPE: usize = Self::RESOURCE + Resolved::MOST_BYTES;

    pub const TYPE: usize = Self::DATATYPE + Resolved::MOST_BYTES;
    // The element's expanded name.
    pub const IRI: usize = Self::TYPE + Resolved::MOST_BYTES;
    // A generated label.
    pub const LABEL: usize = Self::IRI + Resolved::MOST_BYTES;
    // A numbered property, for rdf:li.
    pub const PROPERTY: usize = Self::LABEL + 16;
    // xml:lang in lower case.
    pub const TAG: usize = Self::PROPERTY + 64;
}

impl Reference {
    // Did no IRI come of it?
    pub fn is_bad(self) -> bool
        ensures { result ≡ is_bad self }
    {
        self == Reference::Bad
    }

    // Is it longer than an IRI may be?
    pub fn is_long(self) -> bool
        ensures { result ≡ is_long self }
    {
        self == Reference::Long
    }
}

// A reference on a base that may be missing: without one it has to be an IRI.
pub fn resolved(base: Option<&[u8]>, reference: &[u8], area: &mut [u8], at: usize) -> Reference
    requires { Room area.old at }
    ensures { Resolves (resolved (text_if base.entry) (some reference.now)) area.old area.new at result }
{
    match base {
        None => absolute(reference, area, at),
        Some(base) => {
            if !iri::is_iri_reference(reference) {
                return Reference::Bad;
            }
            on_base(base, reference, area, at)
        }
    }
}

// rdf:ID: "#" and the value. Nearly all values are short, and room for the longest would cost more to lay out than all the rest.
pub fn resolved_id(base: Option<&[u8]>, value: &[u8], area: &mut [u8]) -> Reference
    requires { RoomForId value.now area.old }
    ensures { Resolves (resolved (text_if base.entry) (with_hash (some value.now))) area.old area.new 0 result }
{
    if value.len() < FEW {
        return hashed::<FEW>(base, value, area);
    }
    hashed::<HASHED>(base, value, area)
}

// The same for a value that is shorter than N bytes.
fn hashed<const N: usize>(base: Option<&[u8]>, value: &[u8], area: &mut [u8]) -> Reference
    requires { RoomForId value.now area.old × (length value.now < N) × (N ≤ 32_769) }
    ensures { Resolves (resolved (text_if base.entry) (with_hash (some value.now))) area.old area.new 0 result }
{
    let n = value.len() + 1;
    let mut reference = [b'#'; N];
    copy::put(&mut reference, 1, value);
    resolved(base, &reference[..n], area, Area::ID)
}

// Without a base.
fn absolute(reference: &[u8], area: &mut [u8], at: usize) -> Reference
    requires { Room area.old at }
    ensures { Resolves (resolved none (some reference.now)) area.old area.new at result }
{
    if !iri::is_iri(reference) {
        return Reference::Bad;
    }
    if Resolved::MOST_BYTES < reference.len() {
        return Reference::Long;
    }
    copy::put(area, at, reference);
    Reference::Made(reference.len())
}

// On a base, which may have any length: a longer one than an IRI may be is refused later.
fn on_base(base: &[u8], reference: &[u8], area: &mut [u8], at: usize) -> Reference
    requires { Room area.old at × (is_iri_reference reference.now ≡ true) }
    ensures { Resolves (resolved (some base.now) (some reference.now)) area.old area.new at result }
{
    let to = at + Resolved::AREA;
    match resolve::resolve(base, reference, &mut area[at..to]) {
        Ok(resolved) => Reference::Made(resolved.len),
        Err(ResolveError::NoForm) => Reference::Bad,
        Err(ResolveError::TooLong) => Reference::Long,
        Err(ResolveError::NoArea) => Reference::Bad,
    }
}
