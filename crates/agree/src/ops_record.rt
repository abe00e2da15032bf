// The ops over a record: its verdict, an entry.
use crate::cases::{Case, Fault, Payloads};
use crate::reply::{Answer, Told, answer};
use exports::recording::{plane_entry, plane_record};

// Op 12: the verdict on the record p.
pub(crate) fn record(case: &Case, p: &[u8]) -> Result<Answer, Fault> {
    case.args::<0>(Payloads::P)?;
    let x = plane_record(p);
    let told = Told::Record {
        length: x.length,
        count: x.count,
        total: x.total,
    };
    Ok(answer(x.refused, x.place, told))
}

// Op 13: entry a0 of the record p.
pub(crate) fn entry(case: &Case, p: &[u8]) -> Result<Answer, Fault> {
    let [n] = case.args::<1>(Payloads::P)?;
    let x = plane_entry(p, n as usize);
    Ok(answer(x.refused, x.place, Told::Entry(x)))
}
