// The op over a list of corrections.
ghost use Rattle.std.specs.Prelude.{◌≤◌, map, take};
ghost use Rattle.editor.specs.Views.{asked};
ghost use Rattle.exports.specs.Promises.{EditedAll};

use crate::cases::{Case, Fault, Payloads, number};
use crate::reply::{Answer, NotOk, Refused, Told};
use book::words::long;
use editor::editing::Correction;
use exports::answers::PlaneStopped;
use exports::recording::plane_edit_all;

// How many corrections a payload can hold.
const MOST: usize = 1024;

// The correction of 24 bytes.
fn correction(bytes: &[u8; 24]) -> Correction {
    Correction {
        word: long(bytes, 0) as usize,
        value: long(bytes, 2),
        operator: long(bytes, 4),
        reason: long(bytes, 6),
        time: number(long(bytes, 8), long(bytes, 10)),
    }
}

// Lends the first n corrections.
fn edit_first(p: &mut [u8], list: &[Correction; MOST], n: usize) -> PlaneStopped
    requires { n ≤ 1024 }
    ensures { EditedAll p.old (map asked (take n list.now)) result p.new }
{
    plane_edit_all(p, &list[..n])
}

// What a list was answered: where it stopped, the refusal and the position.
fn stopped(x: PlaneStopped) -> Answer {
    if x.refused == 0 {
        return Ok(Told::Nothing);
    }
    let refused = Refused {
        number: x.refused,
        place: x.place,
    };
    Err(NotOk::Stopped(refused, x.position))
}

// Op 22: makes the corrections of q in p, in order. The line of a case whose last correction is not whole has the buffer behind it all the same.
// The list is an array of as many as there can be, and no `Vec`: no heap is asked for.
pub(crate) fn edit_all(case: &Case, p: &mut [u8], q: &[u8]) -> Result<Answer, Fault> {
    case.args::<0>(Payloads::PAndQ)?;
    let (corrections, rest) = q.as_chunks::<24>();
    if MOST < corrections.len() || !rest.is_empty() {
        return Ok(Err(NotOk::BadCase));
    }
    let mut list = [correction(&[0; 24]); MOST];
    for (place, bytes) in list.iter_mut().zip(corrections) {
        *place = correction(bytes);
    }
    Ok(stopped(edit_first(p, &list, corrections.len())))
}
