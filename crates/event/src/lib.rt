// What the handler of an event answers, and where an event stands.
#![tactic(auto)]

ghost use Rattle.std.specs.Prelude.{◌≡◌};
ghost use Rattle.event.specs.Place.{place_at, place_of};

use state::Registers;
use state_words::{Frame, Kind};

// Of an accepted event: how many bytes its lines have, and the registers behind it.
#[derive(Clone, Copy)]
pub struct Done {
    pub written: usize,
    pub registers: Registers,
}

// Of an accepted event that may have entered an rdf:ID: besides, the two numbers of the table of rdf:IDs.
#[derive(Clone, Copy)]
pub struct Advance {
    pub written: usize,
    pub registers: Registers,
    pub count: usize,
    pub used: usize,
}

// What may stand where an event stands.
#[derive(Clone, Copy)]
pub enum Place {
    Outside,
    Nodes,
    Properties,
    NodesOrText,
    Xml,
}

// By the innermost open element.
pub fn place_at(r: Registers, frames: &[u32]) -> Place
    ensures { result ≡ place_at r frames.now }
{
    if r.counts.inner != 0 {
        return Place::Xml;
    }
    if r.counts.depth == 0 {
        return Place::Outside;
    }
    let f = Frame::load(frames, r.counts.depth - 1);
    let kind = f.kind;
    place_of(kind)
}

fn place_of(kind: Kind) -> Place
    ensures { result ≡ place_of kind }
{
    match kind {
        Kind::Rdf => Place::Nodes,
        Kind::NodeElt => Place::Properties,
        Kind::PropertyElt => Place::NodesOrText,
        Kind::ParseTypeCollectionPropertyElt => Place::Nodes,
        Kind::ParseTypeLiteralPropertyElt => Place::Xml,
        Kind::ParseTypeOtherPropertyElt => Place::Xml,
        Kind::Wrapper => Place::Outside,
    }
}
