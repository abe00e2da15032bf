// The assembler of events over several frames.
ghost use Rattle.std.specs.Prelude.{◌≡◌};
ghost use Rattle.assembler.specs.Views.{view_taken};
ghost use Rattle.exports.specs.Flat.{flat_taken};
ghost use Rattle.exports.specs.Promises.{AssemblerGiven, AssemblerFlat, AssemblerMade, TakeTold, GivenUpTold};

use crate::answers::{PlaneAssembler, PlaneTaken};
use assembler::{Assembler, OpenEvent, Taken};
use book::refusal::Refusal;

impl From<PlaneAssembler> for Assembler {
    ghost from_gives = { AssemblerGiven };

    fn from(x: PlaneAssembler) -> Assembler {
        let open = OpenEvent {
            number: x.number,
            size: x.size,
            key: x.key,
        };
        Assembler {
            card: x.card,
            follower: x.follower.into(),
            event: if x.open == 0 { None } else { Some(open) },
        }
    }
}

impl From<Assembler> for PlaneAssembler {
    ghost from_gives = { AssemblerFlat };

    #[tactic(auto, unfolding(crate::specs::Flat::flat_assembler))]
    fn from(a: Assembler) -> PlaneAssembler {
        let none = PlaneAssembler {
            card: a.card,
            follower: a.follower.into(),
            ..PlaneAssembler::default()
        };
        match a.event {
            None => none,
            Some(o) => PlaneAssembler {
                open: 1,
                number: o.number,
                size: o.size,
                key: o.key,
                ..none
            },
        }
    }
}

// The answer, where the assembler was asked as `given`.
#[tactic(auto, unfolding(crate::specs::Flat::flat_taken))]
fn flat_taken(given: PlaneAssembler, taken: Result<Taken, Refusal>) -> PlaneTaken
    ensures { result ≡ flat_taken given (view_taken taken) }
{
    match taken {
        Ok(x) => PlaneTaken {
            lost: x.lost,
            next: x.next.into(),
            ..PlaneTaken::default()
        },
        Err(r) => PlaneTaken {
            refused: r.fault.number(),
            place: r.place,
            next: given,
            ..PlaneTaken::default()
        },
    }
}

// An assembler of a card that has taken nothing: `Assembler::new`.
pub fn plane_new_assembler(card: u16) -> PlaneAssembler
    ensures { AssemblerMade card result }
{
    Assembler::new(card).into()
}

// The next frame of the run: `Assembler::take`.
pub fn plane_take(assembler: PlaneAssembler, frame: &[u8]) -> PlaneTaken
    ensures { TakeTold assembler frame.now result }
{
    let state = Assembler::from(assembler);
    flat_taken(assembler, state.take(frame))
}

// The open event is given up: `Assembler::give_up`.
pub fn plane_give_up(assembler: PlaneAssembler) -> PlaneAssembler
    ensures { GivenUpTold assembler result }
{
    let state = Assembler::from(assembler);
    state.give_up().into()
}
