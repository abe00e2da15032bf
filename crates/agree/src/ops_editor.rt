// The ops over the editor: open, edit, restore.
use crate::cases::{Case, Fault, Payloads};
use crate::reply::{Answer, Told, answer};
use editor::editing::Correction;
use exports::answers::PlaneDone;
use exports::recording::{plane_edit, plane_open, plane_restore};

fn done(x: PlaneDone) -> Answer {
    answer(x.refused, x.place, Told::Nothing)
}

// Op 14: opens a record of the frame q in p.
pub(crate) fn open(case: &Case, p: &mut [u8], q: &[u8]) -> Result<Answer, Fault> {
    case.args::<0>(Payloads::PAndQ)?;
    Ok(done(plane_open(p, q)))
}

// Op 15: edits p: word a0, value a1, operator a2, reason a3, time a4.
pub(crate) fn edit(case: &Case, p: &mut [u8]) -> Result<Answer, Fault> {
    let [word, value, operator, reason, time] = case.args::<5>(Payloads::P)?;
    let correction = Correction {
        word: u32::try_from(word)? as usize,
        value: u32::try_from(value)?,
        operator: u32::try_from(operator)?,
        reason: u32::try_from(reason)?,
        time,
    };
    Ok(done(plane_edit(p, correction)))
}

// Op 16: restores the record p to a0 into q.
pub(crate) fn restore(case: &Case, p: &[u8], q: &mut [u8]) -> Result<Answer, Fault> {
    let [k] = case.args::<1>(Payloads::PAndQ)?;
    Ok(done(plane_restore(p, k as usize, q)))
}
