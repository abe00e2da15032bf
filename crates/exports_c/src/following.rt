// The follower of sequence numbers.
ghost use Rattle.exports.specs.Promises.{FollowTold};

use exports::answers::{PlaneFollowed, PlaneFollower};
use exports::following;

#[unsafe(no_mangle)]
pub extern "C" fn plane_follow(follower: PlaneFollower, word: u16) -> PlaneFollowed
    ensures { FollowTold follower word result }
{
    following::plane_follow(follower, word)
}
