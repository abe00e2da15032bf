// The op over the follower of sequence numbers.
use crate::cases::{Case, Fault, Payloads, up_to};
use crate::reply::{Answer, Told, answer};
use exports::answers::PlaneFollower;
use exports::following::plane_follow;

// The follower's state as a case codes it: 0 idle, 1 + e expecting e.
pub(crate) fn state_of(code: u64) -> Result<PlaneFollower, Fault> {
    let Some(number) = code.checked_sub(1) else {
        return Ok(PlaneFollower::default());
    };
    Ok(PlaneFollower {
        expecting: 1,
        number: u8::try_from(number)?,
    })
}

pub(crate) fn code_of(state: PlaneFollower) -> u64 {
    if state.expecting == 0 {
        return 0;
    }
    1 + state.number as u64
}

// Op 11: the follower in the state a0 is fed the word a1.
pub(crate) fn follow(case: &Case) -> Result<Answer, Fault> {
    let [state, word] = case.args::<2>(Payloads::None)?;
    let x = plane_follow(state_of(state)?, u16::try_from(word)?);
    let told = Told::Followed {
        lost: x.lost,
        state: code_of(x.next),
    };
    Ok(answer(x.refused, x.place, told))
}
