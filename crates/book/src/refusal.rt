// A refusal: what is wrong, by document 01's numbers, and the place that it gives.
ghost use Rattle.book.specs.Refusals.{AtStart, FaultOf, FollowerAtStart};
ghost use Rattle.book.specs.Promises.{FaultNumbered, Placed};

use follower::SequenceError;

// What is wrong: document 01's table of refusals, and behind it document 02's.
#[derive(Clone, Copy, Debug, PartialEq, Eq)]
pub enum Fault {
    Length = 1,
    Kind = 2,
    Size = 3,
    Sequence = 4,
    End = 5,
    Class = 6,
    Cut = 7,
    Place = 8,
    Value = 9,
    Order = 10,
    Open = 11,
    Room = 12,
    Absent = 13,
    NoStart = 14,
    Link = 15,
    Header = 20,
    Entry = 21,
    Target = 22,
    NewValue = 23,
    Signer = 24,
    Full = 25,
    NoEntry = 26,
}

#[derive(Clone, Copy, Debug, PartialEq, Eq)]
pub struct Refusal {
    pub fault: Fault,
    pub place: usize,
}

impl Fault {
    // Its number in the documents' table.
    pub fn number(self) -> u32
        ensures { FaultNumbered self result }
    {
        self as u32
    }

    // The refusal at a place.
    pub fn at(self, place: usize) -> Refusal
        ensures { Placed self place result }
    {
        Refusal { fault: self, place }
    }
}

// A fault that names no place has place 0.
impl From<Fault> for Refusal {
    ghost from_gives = { AtStart };

    fn from(fault: Fault) -> Refusal {
        fault.at(0)
    }
}

// The follower, which depends on nothing, has faults of its own.
impl From<SequenceError> for Fault {
    ghost from_gives = { FaultOf };

    fn from(e: SequenceError) -> Fault {
        match e {
            SequenceError::NoSequence => Fault::Sequence,
            SequenceError::NoStart => Fault::NoStart,
        }
    }
}

impl From<SequenceError> for Refusal {
    ghost from_gives = { FollowerAtStart };

    fn from(e: SequenceError) -> Refusal {
        Fault::from(e).at(0)
    }
}
