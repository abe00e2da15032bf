// The follower of sequence numbers.
ghost use Rattle.std.specs.Prelude.{◌≡◌};
ghost use Rattle.follower.specs.Paper.{view};
ghost use Rattle.exports.specs.Flat.{flat_followed};
ghost use Rattle.exports.specs.Promises.{FollowerGiven, FollowerFlat, FollowTold};

use crate::answers::{PlaneFollowed, PlaneFollower};
use book::refusal::Fault;
use follower::{Followed, Follower, SequenceError};

impl From<PlaneFollower> for Follower {
    ghost from_gives = { FollowerGiven };

    fn from(x: PlaneFollower) -> Follower {
        if x.expecting == 0 {
            return Follower::Idle;
        }
        Follower::Expecting(x.number)
    }
}

impl From<Follower> for PlaneFollower {
    ghost from_gives = { FollowerFlat };

    fn from(follower: Follower) -> PlaneFollower {
        match follower {
            Follower::Idle => PlaneFollower::default(),
            Follower::Expecting(number) => PlaneFollower {
                expecting: 1,
                number,
            },
        }
    }
}

// The answer, where the follower was asked as `given`.
#[tactic(auto, unfolding(crate::specs::Flat::flat_followed))]
fn flat_followed(given: PlaneFollower, followed: Result<Followed, SequenceError>) -> PlaneFollowed
    ensures { result ≡ flat_followed given (view followed) }
{
    match followed {
        Ok(x) => PlaneFollowed {
            lost: x.lost,
            next: x.next.into(),
            ..PlaneFollowed::default()
        },
        Err(e) => PlaneFollowed {
            refused: Fault::from(e).number(),
            next: given,
            ..PlaneFollowed::default()
        },
    }
}

// Feeds the follower the sequence word of a frame: `Follower::follow`.
pub fn plane_follow(follower: PlaneFollower, word: u16) -> PlaneFollowed
    ensures { FollowTold follower word result }
{
    let state = Follower::from(follower);
    flat_followed(follower, state.follow(word))
}
