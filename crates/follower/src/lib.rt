// The follower of frame sequence numbers (document 01, "Sequence numbers"): it is fed the sequence word of each frame that arrives, and tells how
// many frames were lost before it.
#![tactic(auto)]

ghost use Rattle.std.specs.Prelude.{◌≡◌};
ghost use Rattle.follower.specs.Follow.{idle, expecting, numbered};
ghost use Rattle.follower.specs.Paper.{view};
ghost use Rattle.follower.specs.Promises.{Unstarted, FollowedBy, ErrorNumbered, ErrorPlaced};

// What the follower knows. It goes in and comes out by value, so on a refusal the caller's own copy stays as it was.
#[derive(Clone, Copy, Debug, PartialEq, Eq)]
pub enum Follower {
    // No start was seen.
    Idle,
    // The number that the next frame has if none is lost.
    Expecting(u8),
}

// The answer to one sequence word that is accepted: how many frames were lost before this one, and the follower from here on.
#[derive(Clone, Copy, Debug, PartialEq, Eq)]
pub struct Followed {
    pub lost: u8,
    pub next: Follower,
}

// Why a sequence word is refused, by document 01's numbers.
#[derive(Clone, Copy, Debug, PartialEq, Eq)]
pub enum SequenceError {
    // The word is no sequence word.
    NoSequence = 4,
    // A sequence number before a start.
    NoStart = 14,
}

impl SequenceError {
    // Its number in document 01's table.
    pub fn number(self) -> u32
        ensures { ErrorNumbered self result }
    {
        self as u32
    }

    // Both refusals of the follower have place 0.
    pub fn place(self) -> usize
        ensures { ErrorPlaced self result }
    {
        0
    }
}

impl Follower {
    // The word that starts the count.
    pub const START: u16 = 0x0100;

    // How many sequence numbers there are; after the last comes 0 again.
    pub const NUMBERS: u16 = 256;

    // A follower that has seen nothing.
    pub fn new() -> Self
        ensures { Unstarted result }
    {
        Follower::Idle
    }

    // The start word is accepted in any state, a word above it refused by 4; a number is refused by 14 before a start, unless it is 0.
    #[tactic(auto, using(crate::proofs::LineLaws::starts, crate::proofs::LineLaws::numbers, crate::proofs::LineLaws::passes))]
    pub fn follow(self, word: u16) -> Result<Followed, SequenceError>
        ensures { FollowedBy self word result }
    {
        if word == Follower::START {
            return Ok(Followed {
                lost: 0,
                next: Follower::Expecting(1),
            });
        }
        let Ok(number) = u8::try_from(word) else {
            return Err(SequenceError::NoSequence);
        };
        match self {
            Follower::Idle => unstarted(number),
            Follower::Expecting(expected) => Ok(counted(expected, number)),
        }
    }
}

// A number while idle: 0 says that numbers are not in use.
#[tactic(auto, using(crate::proofs::LineLaws::unused, crate::proofs::LineLaws::early))]
fn unstarted(number: u8) -> Result<Followed, SequenceError>
    ensures { view result ≡ numbered idle number }
{
    if number != 0 {
        return Err(SequenceError::NoStart);
    }
    Ok(Followed {
        lost: 0,
        next: Follower::Idle,
    })
}

// A number while another, or this one, is expected: (number - expected) modulo 256 frames were lost, and the number after this one is next. A u8
// counts so by itself; the `prove!` ties that to NUMBERS. (In a `const` item it would be evaluated, and nothing proved.)
#[tactic(auto, using(crate::proofs::LineLaws::counts_by))]
fn counted(expected: u8, number: u8) -> Followed
    ensures { view (Ok result) ≡ numbered (expecting expected) number }
{
    prove!(Follower::NUMBERS == u8::MAX as u16 + 1);
    Followed {
        lost: number.wrapping_sub(expected),
        next: Follower::Expecting(number.wrapping_add(1)),
    }
}
