// The op over the listing of a record.
use crate::cases::{Case, Fault, Payloads};
use crate::reply::{Answer, NotOk, Refused, Told};
use listing::listing;

// Op 17: lists the buffer p into q.
pub(crate) fn list(case: &Case, p: &[u8], q: &mut [u8]) -> Result<Answer, Fault> {
    case.args::<0>(Payloads::PAndQ)?;
    Ok(match listing(p, q) {
        Ok(n) => Ok(Told::Number(n as u64)),
        Err(r) => Err(NotOk::Refused(Refused {
            number: r.fault.number(),
            place: r.place,
        })),
    })
}
