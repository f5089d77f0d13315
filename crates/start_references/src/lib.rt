// The references of a start tag, resolved on the base that holds for it: refusals 11 and 12.
#![tactic(auto)]

ghost use Rattle.std.specs.Prelude.{◌≡◌};
ghost use Rattle.spec.specs.StartTag.{resolved, with_hash, rdf_ID};
ghost use Rattle.state_inner.specs.Calls.{base_in};
ghost use Rattle.start_references.specs.Reference.{text_if, Resolves};
ghost use Rattle.start_attributes.specs.Role.{role_is};
ghost use Rattle.start_attributes.specs.First.{first_in};
ghost use Rattle.state_ids.specs.Ids.{SpansIn};
ghost use Rattle.start_references.specs.Values.{value_if, in_force, base_at};
ghost use Rattle.start_references.specs.References.{five_at, references, fresh_by, used_by, Ready, Four, any_bad, any_long, Resolving};

pub mod reference;

use crate::reference::{Area, Reference};
use spec::Refusal;
use start_attributes::roles::Role;
use state::{Registers, Span};
use state_ids::IdTable;

// The references of a tag, resolved: rdf:ID, and rdf:about, rdf:resource, rdf:datatype, rdf:type.
#[derive(Clone, Copy, PartialEq, Eq, Debug)]
pub struct References {
    pub id: Reference,
    pub others: Others,
}

#[derive(Clone, Copy, PartialEq, Eq, Debug)]
pub struct Others {
    pub about: Reference,
    pub resource: Reference,
    pub datatype: Reference,
    pub kind: Reference,
}

impl Others {
    // Did no IRI come of one of them?
    fn is_bad(self) -> bool
        ensures { result ≡ any_bad self }
    {
        self.about.is_bad()
            || self.resource.is_bad()
            || self.datatype.is_bad()
            || self.kind.is_bad()
    }

    // Is one of them longer than an IRI may be?
    pub fn is_long(self) -> bool
        ensures { result ≡ any_long self }
    {
        self.about.is_long()
            || self.resource.is_long()
            || self.datatype.is_long()
            || self.kind.is_long()
    }
}

// The base is the tag's own, or that in force.
pub fn resolve_references<'a>(
    r: Registers,
    frames: &[u32],
    work: &'a [u8],
    count: usize,
    starts: &[u32; IdTable::MOST],
    sizes: &[u32; IdTable::MOST],
    ids: &[u8],
    scratch: &'a [u8],
    spans: &[u32],
    k: usize,
    roles: &[u8],
    area: &mut [u8],
) -> Result<References, Refusal>
    requires { Ready scratch.now area.old 4096 × SpansIn count starts.now sizes.now ids.now }
    ensures { Resolving (references (in_force scratch.now spans.now work.now k roles.now (base_in r frames.now)) (fresh_by count starts.now sizes.now ids.now) (five_at scratch.now spans.now k roles.now)) area.old area.new result }
{
    let j = start_attributes::first_in(roles, k, Role::XmlBase);
    let f = state_inner::base_in_force(r, frames);
    let base = base_of(scratch, spans, k, j, work, f);
    resolve_on(
        base, count, starts, sizes, ids, scratch, spans, k, roles, area,
    )
}

// The base, where there is one: the tag's own, at place j of k, or else that in force.
fn base_of<'a>(
    scratch: &'a [u8],
    spans: &[u32],
    k: usize,
    j: usize,
    work: &'a [u8],
    f: Option<Span>,
) -> Option<&'a [u8]>
    ensures { text_if result ≡ base_at scratch.now spans.now k j work.now f }
{
    if j < k {
        return Some(start_names::value_of(scratch, spans, j));
    }
    match f {
        None => None,
        Some(span) => Some(copy::piece(work, span.at, span.len)),
    }
}

// rdf:ID (11, 12), then the others (11), among which the order does not show.
fn resolve_on(
    base: Option<&[u8]>,
    count: usize,
    starts: &[u32; IdTable::MOST],
    sizes: &[u32; IdTable::MOST],
    ids: &[u8],
    scratch: &[u8],
    spans: &[u32],
    k: usize,
    roles: &[u8],
    area: &mut [u8],
) -> Result<References, Refusal>
    requires { Ready scratch.now area.old 4096 × SpansIn count starts.now sizes.now ids.now }
    ensures { Resolving (references (text_if base.entry) (fresh_by count starts.now sizes.now ids.now) (five_at scratch.now spans.now k roles.now)) area.old area.new result }
{
    let id = resolve_id(base, scratch, spans, k, roles, area);
    if id.is_bad() {
        return Err(Refusal::BadIri);
    }
    if is_used(id, area, count, starts, sizes, ids) {
        return Err(Refusal::RepeatedId);
    }
    let others = resolve_others(base, scratch, spans, k, roles, area);
    if others.is_bad() {
        return Err(Refusal::BadIri);
    }
    Ok(References { id, others })
}

fn resolve_id(
    base: Option<&[u8]>,
    scratch: &[u8],
    spans: &[u32],
    k: usize,
    roles: &[u8],
    area: &mut [u8],
) -> Reference
    requires { Ready scratch.now area.old 0 }
    ensures { Resolves (resolved (text_if base.entry) (with_hash (value_if scratch.now spans.now k (first_in roles.now k rdf_ID)))) area.old area.new 0 result }
{
    let j = start_attributes::first_in(roles, k, Role::Id);
    if k <= j {
        return Reference::Missing;
    }
    let value = start_names::value_of(scratch, spans, j);
    crate::reference::resolved_id(base, value, area)
}

// Had an earlier event this rdf:ID? One that is too long had none.
fn is_used(
    id: Reference,
    area: &[u8],
    count: usize,
    starts: &[u32; IdTable::MOST],
    sizes: &[u32; IdTable::MOST],
    ids: &[u8],
) -> bool
    requires { SpansIn count starts.now sizes.now ids.now }
    ensures { result ≡ used_by count starts.now sizes.now ids.now area.now id }
{
    match id {
        Reference::Missing | Reference::Bad | Reference::Long => false,
        Reference::Made(n) => state_ids::find(
            count,
            starts,
            sizes,
            ids,
            copy::piece(area, Area::ID, n),
        ),
    }
}

fn resolve_others(
    base: Option<&[u8]>,
    scratch: &[u8],
    spans: &[u32],
    k: usize,
    roles: &[u8],
    area: &mut [u8],
) -> Others
    requires { Ready scratch.now area.old 4096 }
    ensures { Four (text_if base.entry) (five_at scratch.now spans.now k roles.now) area.old area.new result }
{
    let about = resolve_in(
        Role::About,
        base,
        scratch,
        spans,
        k,
        roles,
        area,
        Area::ABOUT,
    );
    let resource = resolve_in(
        Role::Resource,
        base,
        scratch,
        spans,
        k,
        roles,
        area,
        Area::RESOURCE,
    );
    let datatype = resolve_in(
        Role::Datatype,
        base,
        scratch,
        spans,
        k,
        roles,
        area,
        Area::DATATYPE,
    );
    let kind = resolve_in(Role::Type, base, scratch, spans, k, roles, area, Area::TYPE);
    Others {
        about,
        resource,
        datatype,
        kind,
    }
}

// The value of the first attribute in a role, resolved to a place of the area.
fn resolve_in(
    role: Role,
    base: Option<&[u8]>,
    scratch: &[u8],
    spans: &[u32],
    k: usize,
    roles: &[u8],
    area: &mut [u8],
    at: usize,
) -> Reference
    requires { Ready scratch.now area.old at }
    ensures { Resolves (resolved (text_if base.entry) (value_if scratch.now spans.now k (first_in roles.now k (role_is role)))) area.old area.new at result }
{
    let j = start_attributes::first_in(roles, k, role);
    if k <= j {
        return Reference::Missing;
    }
    let value = start_names::value_of(scratch, spans, j);
    crate::reference::resolved(base, value, area, at)
}
