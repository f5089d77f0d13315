// Documents 01 and 02 as definitions (specs/), with a few laws of bytes and Booleans (proofs/); here, what code and definitions share:
// the refusals, what a language tag can be, and what is chosen of a document at its start.
#![tactic(auto)]

ghost use Rattle.std.specs.Prelude.{◌≡◌};
ghost use Rattle.spec.specs.Modes.{base_mode, xmp_mode};
ghost use Rattle.spec.specs.Numbers.{number};

// Why a call was refused: document 01, "Numbers returned", 1 to 18 in this order; 19 of document 02.
#[derive(Clone, Copy, Debug, PartialEq, Eq)]
pub enum Refusal {
    Incomplete,
    NoRoom,
    BadState,
    Closed,
    NotPyx,
    NotWellFormed,
    OverLimit,
    NoNamespace,
    NotNcName,
    BadLanguage,
    BadIri,
    RepeatedId,
    BadLabel,
    Reserved,
    TwoNames,
    StrayText,
    EmptyLiteral,
    LabelsSpent,
    ProfileBroken,
}

impl From<Refusal> for u8 {
    // The number that document 01 gives a refusal.
    ghost from_gives = { λ r n. n ≡ number r };

    fn from(r: Refusal) -> u8 {
        match r {
            Refusal::Incomplete => 1,
            Refusal::NoRoom => 2,
            Refusal::BadState => 3,
            Refusal::Closed => 4,
            Refusal::NotPyx => 5,
            Refusal::NotWellFormed => 6,
            Refusal::OverLimit => 7,
            Refusal::NoNamespace => 8,
            Refusal::NotNcName => 9,
            Refusal::BadLanguage => 10,
            Refusal::BadIri => 11,
            Refusal::RepeatedId => 12,
            Refusal::BadLabel => 13,
            Refusal::Reserved => 14,
            Refusal::TwoNames => 15,
            Refusal::StrayText => 16,
            Refusal::EmptyLiteral => 17,
            Refusal::LabelsSpent => 18,
            Refusal::ProfileBroken => 19,
        }
    }
}

// What a value of xml:lang is: a language tag, empty, by which no language is in force, or neither. Document 02, request 2.
#[derive(Clone, Copy, Debug, PartialEq, Eq)]
pub enum Verdict {
    Good,
    Clears,
    Bad,
}

// What is chosen of a document at its start. One field for each choice; they do not depend on each other.
#[derive(Clone, Copy, Debug, PartialEq, Eq)]
pub struct Mode {
    // Request 1: only an XMP packet is read, and not any RDF.
    pub xmp: bool,
}

impl Mode {
    // As document 01 reads.
    pub fn base() -> Self
        ensures { result ≡ base_mode }
    {
        Mode { xmp: false }
    }

    // Request 1.
    pub fn xmp() -> Self
        ensures { result ≡ xmp_mode }
    {
        Mode { xmp: true }
    }
}
