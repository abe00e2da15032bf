// An assembler over the data frames of one card (document 02, request 1): it takes them one by one, goes on with an event over several of them and
// tells how many were lost before each. What each function answers is said by the definitions of the crate `runs`; each takes all bytes and all
// arguments. A frame is read once: the step goes by what `read` tells of it and by a few of its words.
#![tactic(auto)]

ghost use Rattle.std.specs.Prelude.{◌≡◌};
ghost use Rattle.follower.specs.Follow.{accepted, follow};
ghost use Rattle.follower.specs.Paper.{state_of};
ghost use Rattle.frame.specs.Views.{view_frame};
ghost use Rattle.runs.specs.Marked.{linking_by};
ghost use Rattle.assembler.specs.Views.{view_assembler, view_followed, view_taken};
ghost use Rattle.assembler.specs.Promises.{Unused, GivenUp, TakenAs};

use crate::links::linked;
use crate::opens::open_after;
use crate::part::Part;
use book::refusal::{Fault, Refusal};
use follower::{Followed, Follower};
use frame::reading::read;
use rules::state::Kind;

mod links;
mod opens;
mod part;

// An event that is open. Any numbers are taken, and mean what `take` leaves in them.
#[derive(Clone, Copy, Debug, PartialEq, Eq)]
pub struct OpenEvent {
    pub number: u32,
    // Its bytes so far, of all parts, Continue items included.
    pub size: u32,
    // The least key that its next Channel header may have; 0 where any may.
    pub key: u32,
}

impl OpenEvent {
    // The first size past 32 bits.
    pub const PAST: u64 = 4294967296;

    // The bytes of a frame that are no item's: its first three words and the last.
    pub const NO_ITEMS: usize = 8;
}

// It goes in and comes out by value, so on a refusal the caller's own copy stays as it was, its follower too. A card above 31 has no frame.
#[derive(Clone, Copy, Debug, PartialEq, Eq)]
pub struct Assembler {
    pub card: u16,
    pub follower: Follower,
    // The event that is open, if one is.
    pub event: Option<OpenEvent>,
}

// The answer to one frame that is accepted: how many frames were lost before this one, and the assembler from here on.
#[derive(Clone, Copy, Debug, PartialEq, Eq)]
pub struct Taken {
    pub lost: u8,
    pub next: Assembler,
}

impl Assembler {
    // An assembler of a card that has taken nothing.
    pub fn new(card: u16) -> Assembler
        ensures { Unused card result }
    {
        Assembler {
            card,
            follower: Follower::new(),
            event: None,
        }
    }

    // The open event is given up; the card and the follower stay.
    pub fn give_up(self) -> Assembler
        ensures { GivenUp self result }
    {
        Assembler {
            event: None,
            ..self
        }
    }

    // The next frame. Refuses as `read` does, then by 14 as the follower does, then by 15 at 0 a frame that is no data frame, is of another card or
    // does not link to what is open.
    pub fn take(self, frame: &[u8]) -> Result<Taken, Refusal>
        ensures { TakenAs self frame.now result }
    {
        let f = read(frame)?;
        let followed = self.followed(f.sequence)?;
        let part = Part {
            bytes: frame,
            frame: f,
        };
        self.link(part, followed)
    }

    // The frame's sequence word is followed. The follower's fault is named apart, so that a wrong number is refused at what it means.
    fn followed(self, sequence: u16) -> Result<Followed, Refusal>
        ensures { view_followed result ≡ follow (state_of self.follower) sequence }
    {
        match self.follower.follow(sequence) {
            Ok(followed) => Ok(followed),
            Err(e) => {
                let fault = Fault::from(e);
                Err(fault.into())
            }
        }
    }

    // The frame links to what is open, or does not.
    fn link(self, part: Part<'_>, followed: Followed) -> Result<Taken, Refusal>
        ensures { view_taken result ≡ linking_by (view_assembler self) part.entry.bytes.now (view_frame part.entry.frame) (accepted followed.lost (state_of followed.next)) }
    {
        let lost = followed.lost;
        let told = part.frame;
        if (told.kind == Kind::Data) & (told.card == self.card) & linked(self.event, lost, part) {
            let next = Assembler {
                card: self.card,
                follower: followed.next,
                event: open_after(self.event, part),
            };
            return Ok(Taken { lost, next });
        }
        Err(Fault::Link.into())
    }
}
