// The refusals: what is wrong with a file or a query, and at which place.
ghost use Rattle.std.specs.Prelude.{◌≡◌};
ghost use Rattle.reading.specs.Refusals.{number_of, reason_of, refusal};

use pattern::Flaw;

// Why a file or a query is refused. 1 to 11 are about the file; its number is what the card of refusals says.
#[derive(Clone, Copy, PartialEq, Eq)]
pub enum Reason {
    // A record has a kind that does not exist.
    UnknownKind = 1,
    // A record has a known kind and stands where it may not.
    OutOfPlace = 2,
    // The file stops too early: inside a record, or before the end record.
    CutShort = 3,
    // The width is 0, or more than 32.
    BadWidth = 4,
    // The number of nodes is 0, or more than 64.
    BadNodeCount = 5,
    // A table has the wrong node number.
    TableNumber = 6,
    // A rule forwards to a node that does not exist.
    NoSuchNext = 7,
    // The mask or the value of a rule is too large for the width.
    OutsideWidth = 8,
    // A rule's value has a one at a free bit.
    ValueAtFree = 9,
    // There are more than 256 rules in all tables together.
    TooManyRules = 10,
    // There are bytes after the end record.
    AfterTheEnd = 11,
    // The rules part the headers into more than 512 classes.
    TooManyClasses = 12,
    // The program that asked has lent too little room for the answer.
    ShortLists = 13,
    // The header to follow is too large for the width.
    WideHeader = 14,
    // The node to start from does not exist.
    NoSuchStart = 15,
    // A header was followed for as many hops as there are nodes, and reached no end.
    NoEnd = 16,
}

// A refusal: why, and at which place of the file.
#[derive(Clone, Copy, PartialEq, Eq)]
pub struct Refusal {
    pub reason: Reason,
    pub place: usize,
}

impl Reason {
    // The refusal for this reason at a place.
    pub fn at(self, place: usize) -> Refusal
        ensures { result ≡ refusal self place }
    {
        Refusal {
            reason: self,
            place,
        }
    }
}

// The number by which a refusal is told.
impl From<Reason> for u8 {
    ghost from_gives = { λ reason n. n ≡ number_of reason };

    fn from(reason: Reason) -> u8 {
        reason as u8
    }
}

// What a flaw in a filter is in a file.
impl From<Flaw> for Reason {
    ghost from_gives = { λ flaw reason. reason ≡ reason_of flaw };

    fn from(flaw: Flaw) -> Reason {
        match flaw {
            Flaw::WideMask | Flaw::WideValue => Reason::OutsideWidth,
            Flaw::ValueAtFree => Reason::ValueAtFree,
        }
    }
}
