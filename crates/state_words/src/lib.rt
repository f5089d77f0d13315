// What is kept of a document between events, as numbers: the records of its tables, and how they stand in lent words.
#![tactic(auto)]

ghost use Rattle.std.specs.Prelude.{◌≡◌};
ghost use Rattle.state_words.specs.Words.{kind_of, kind_number, load_frame, StoredFrame, no_frame, load_row, StoredRow};

// What an open element outside Literal content is: the states of the Rust's parser, and the wrapper of document 02.
#[derive(Clone, Copy, PartialEq, Eq, Debug)]
pub enum Kind {
    Rdf,
    NodeElt,
    PropertyElt,
    ParseTypeCollectionPropertyElt,
    ParseTypeLiteralPropertyElt,
    ParseTypeOtherPropertyElt,
    // x:xmpmeta around rdf:RDF, in an XMP packet
    Wrapper,
}

// An open element outside Literal content. `at` has where its parts start in the work store, end to end, and where the last one ends;
// `has` says what they are. Both are read by the names below.
#[derive(Clone, Copy)]
pub struct Frame {
    pub kind: Kind,
    pub at: [u32; Frame::PLACES],
    pub has: [u32; Frame::MARKS],
}

// A row of a table with three words a row. Of a binding: where its prefix starts, its length, the namespace's length.
// Of an element inside Literal content: where it starts, its name's length, its first binding.
#[derive(Clone, Copy)]
pub struct Row {
    pub at: u32,
    pub name: u32,
    pub more: u32,
}

// The word that a frame keeps for a kind; a word beyond them is the last.
impl From<u32> for Kind {
    ghost from_gives = { λ word kind. kind ≡ kind_of word };

    #[tactic(auto, unfolding(crate::specs::Words::kind_of))]
    fn from(word: u32) -> Self {
        match word {
            0 => Kind::Rdf,
            1 => Kind::NodeElt,
            2 => Kind::PropertyElt,
            3 => Kind::ParseTypeCollectionPropertyElt,
            4 => Kind::ParseTypeLiteralPropertyElt,
            5 => Kind::ParseTypeOtherPropertyElt,
            _ => Kind::Wrapper,
        }
    }
}

impl From<Kind> for u32 {
    ghost from_gives = { λ kind word. word ≡ kind_number kind };

    fn from(kind: Kind) -> Self {
        match kind {
            Kind::Rdf => 0,
            Kind::NodeElt => 1,
            Kind::PropertyElt => 2,
            Kind::ParseTypeCollectionPropertyElt => 3,
            Kind::ParseTypeLiteralPropertyElt => 4,
            Kind::ParseTypeOtherPropertyElt => 5,
            Kind::Wrapper => 6,
        }
    }
}

impl Frame {
    // The places: name, bindings, own xml:base, own xml:lang; the subject of a node or the IRI of a property; resolved rdf:ID, datatype;
    // the tail, which is a pending object, the children of a Collection or the text of a Literal; its end.
    pub const NAME: usize = 0;

    pub const BINDINGS: usize = Self::NAME + 1;

    pub const BASE: usize = Self::BINDINGS + 1;

    pub const TAG: usize = Self::BASE + 1;

    pub const MAIN: usize = Self::TAG + 1;

    pub const ID: usize = Self::MAIN + 1;

    pub const DATATYPE: usize = Self::ID + 1;

    pub const TAIL: usize = Self::DATATYPE + 1;

    pub const END: usize = Self::TAIL + 1;

    pub const PLACES: usize = Self::END + 1;

    // The marks: is there a base, a tag; is the subject a blank node; is there an rdf:ID, a datatype; what the pending object is;
    // rdf:li of a node or children of a Collection; the first of its bindings.
    pub const BASED: usize = 0;

    pub const TAGGED: usize = Self::BASED + 1;

    pub const BLANK: usize = Self::TAGGED + 1;

    pub const IDENTIFIED: usize = Self::BLANK + 1;

    pub const TYPED: usize = Self::IDENTIFIED + 1;

    pub const PENDING: usize = Self::TYPED + 1;

    pub const COUNT: usize = Self::PENDING + 1;

    pub const FIRST: usize = Self::COUNT + 1;

    pub const MARKS: usize = Self::FIRST + 1;

    // What a pending object is: a named node, a blank one or a text; 0 where there is none.
    pub const NAMED_NODE: u32 = 1;

    pub const BLANK_NODE: u32 = 2;

    pub const TEXT: u32 = 3;

    // What an element is to a packet, in the word that properties use for their object: nothing; it waits for its first child; that is
    // noted. Of an rdf:Alt: that its first rdf:li carries xml:lang.
    pub const PART: usize = Self::PENDING;

    pub const ORDINARY: u32 = 0;

    pub const AWAITED: u32 = 1;

    pub const NOTED: u32 = 2;

    pub const CARRIED: u32 = 3;

    // Words of a frame: its kind and its places, its marks.
    const HEAD: usize = 1 + Self::PLACES;

    pub const WORDS: usize = Self::HEAD + Self::MARKS;

    // Open elements, inside Literal content and outside.
    pub const MOST: usize = 64;

    // Words of the table of frames.
    pub const TABLE: usize = Self::MOST * Self::WORDS;

    pub fn none() -> Self
        ensures { result ≡ no_frame }
    {
        Frame {
            kind: Kind::Rdf,
            at: [0u32; Self::PLACES],
            has: [0u32; Self::MARKS],
        }
    }

    // Frame i of a table; where the table is too short, none: no Option, as the laws of a state rest on `load_frame`.
    pub fn load(frames: &[u32], i: usize) -> Self
        ensures { result ≡ load_frame frames.now i }
    {
        if frames.len() / Self::WORDS <= i {
            return Frame::none();
        }
        let from = i * Self::WORDS;
        let kind = Kind::from(frames[from]);
        let mut at = [0u32; Self::PLACES];
        let mut has = [0u32; Self::MARKS];
        let a = from + 1;
        let h = from + Self::HEAD;
        let e = from + Self::WORDS;
        copy::put(&mut at, 0, &frames[a..h]);
        copy::put(&mut has, 0, &frames[h..e]);
        Frame { kind, at, has }
    }

    pub fn store(frames: &mut [u32], i: usize, f: Frame) -> bool
        ensures { StoredFrame frames.old i f frames.new result }
    {
        if frames.len() / Self::WORDS <= i {
            return false;
        }
        let from = i * Self::WORDS;
        let at = f.at;
        let has = f.has;
        let kind = f.kind;
        frames[from] = u32::from(kind);
        copy::put(frames, from + 1, &at);
        copy::put(frames, from + Self::HEAD, &has)
    }
}

impl Row {
    // Words of a row.
    pub const WORDS: usize = 3;

    // Bindings that open elements declare.
    pub const MOST_BINDINGS: usize = 128;

    // Words of the table of bindings, and of that of elements inside Literal content.
    pub const BINDINGS: usize = Self::MOST_BINDINGS * Self::WORDS;

    pub const INNERS: usize = Frame::MOST * Self::WORDS;

    // Row i of a table; where the table is too short, zeros: no Option, as the laws of a state rest on `load_row`.
    pub fn load(rows: &[u32], i: usize) -> Self
        ensures { result ≡ load_row rows.now i }
    {
        if rows.len() / Self::WORDS <= i {
            return Row {
                at: 0,
                name: 0,
                more: 0,
            };
        }
        let from = i * Self::WORDS;
        Row {
            at: rows[from],
            name: rows[from + 1],
            more: rows[from + 2],
        }
    }

    pub fn store(rows: &mut [u32], i: usize, r: Row) -> bool
        ensures { StoredRow rows.old i r rows.new result }
    {
        if rows.len() / Self::WORDS <= i {
            return false;
        }
        let from = i * Self::WORDS;
        rows[from] = r.at;
        rows[from + 1] = r.name;
        rows[from + 2] = r.more;
        true
    }
}
