// The language of an element: what it says of it, and what is in force in it, which is none or a tag in the work store. A tag is kept by its
// bytes, in lower case; xml:lang="" is kept as a tag that has none.
ghost use Rattle.std.specs.Prelude.{◌≡◌};
ghost use Rattle.state.specs.Language.{mark_of, is_said, tag_of_own, tag_in_force};

use crate::Span;

// What an element says: nothing, that no language is in force in it, or this tag, in what was made of its start tag: start and length.
// Three answers: an Option of an Option would say less.
#[derive(Clone, Copy)]
pub enum Own {
    Unsaid,
    Cleared,
    Given(usize, usize),
}

impl Own {
    // Its mark in a frame: 0 where it says nothing.
    pub fn mark(self) -> u32
        ensures { result ≡ mark_of self }
    {
        match self {
            Own::Unsaid => 0,
            Own::Cleared => 1,
            Own::Given(_, _) => 1,
        }
    }

    // Does the element have xml:lang?
    pub fn is_said(self) -> bool
        ensures { result ≡ is_said self }
    {
        match self {
            Own::Unsaid => false,
            Own::Cleared => true,
            Own::Given(_, _) => true,
        }
    }

    // The bytes of its tag.
    #[tactic(auto, unfolding(crate::specs::Language::tag_of_own))]
    pub fn tag<'a>(self, area: &'a [u8]) -> &'a [u8]
        ensures { result.now ≡ tag_of_own self area.now }
    {
        match self {
            Own::Unsaid => &area[0..0],
            Own::Cleared => &area[0..0],
            Own::Given(at, n) => copy::piece(area, at, n),
        }
    }
}

// The tag in force in an element that says this, with that language around it.
#[tactic(auto, unfolding(crate::specs::Language::tag_in_force))]
pub fn tag_in_force<'a>(own: Own, around: Option<Span>, work: &'a [u8], area: &'a [u8]) -> &'a [u8]
    ensures { result.now ≡ tag_in_force own around work.now area.now }
{
    match own {
        Own::Unsaid => crate::bytes_found(around, work),
        Own::Cleared => &area[0..0],
        Own::Given(at, n) => copy::piece(area, at, n),
    }
}
