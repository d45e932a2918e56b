// Definitions and laws of the hall's calls: see specs/ and proofs/. Here what code and definitions share: the refusals and their
// numbers, an edit, what calls answer, the tables as a host lends them, and the limits of the hall.
#![tactic(auto)]

pub mod lent;
pub mod limits;
pub mod number_of;

ghost use Rattle.std.specs.Prelude.{◌≡◌};
ghost use Rattle.book.specs.Turned.{without_place};

// The documents' fourteen refusals, with their numbers. An accepted call has none.
#[derive(Clone, Copy, PartialEq, Eq)]
pub enum Refusal {
    BadSize = 1,
    BadLength = 2,
    BadTables = 3,
    BadStop = 4,
    BadCost = 5,
    LinkPresent = 6,
    LinkAbsent = 7,
    CostWrongSide = 8,
    BadImage = 9,
    ShortBuffer = 10,
    TooManyWays = 11,
    ListTooLong = 12,
    BadPassing = 13,
    CrowdedPair = 14,
}

// The kinds of edit of a link.
#[derive(Clone, Copy, PartialEq, Eq)]
pub enum Kind {
    Insert,
    Cheapen,
    Raise,
    Delete,
}

// An edit of the link u to v. A delete's cost is not read.
#[derive(Clone, Copy, PartialEq, Eq)]
pub struct Edit {
    pub kind: Kind,
    pub u: u64,
    pub v: u64,
    pub cost: u64,
}

// What an accepted edit answers: the set of touched sources, bit s for source s, their number, and what the link cost before, 0
// where there was none.
#[derive(Clone, Copy, PartialEq, Eq)]
pub struct Edited {
    pub touched: u64,
    pub rows: u32,
    pub before: u32,
}

// What an accepted list of edits answers: the set of the sources that some edit touched, and their number.
#[derive(Clone, Copy, PartialEq, Eq)]
pub struct ListEdited {
    pub touched: u64,
    pub rows: u32,
}

// Why a list of edits is refused, and the place of its first refused edit, counted from 1, 0 where no edit is the reason.
#[derive(Clone, Copy, PartialEq, Eq)]
pub struct ListRefused {
    pub refusal: Refusal,
    pub place: u32,
}

// A list that is refused before its edits.
impl From<Refusal> for ListRefused {
    ghost from_gives = { λ refusal e. e ≡ without_place refusal };

    fn from(refusal: Refusal) -> ListRefused {
        ListRefused { refusal, place: 0 }
    }
}
