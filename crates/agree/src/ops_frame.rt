// The ops over a frame: its verdict, an item, a text.
use crate::cases::{Case, Fault, Payloads};
use crate::reply::{Answer, Told, answer};
use crate::sums::check_sum;
use exports::reading::{plane_item, plane_read, plane_text};

// Op 1: the verdict on the frame p.
pub(crate) fn read(case: &Case, p: &[u8]) -> Result<Answer, Fault> {
    case.args::<0>(Payloads::P)?;
    let x = plane_read(p);
    Ok(answer(x.refused, x.place, Told::Frame(x)))
}

// Op 2: the item of the frame p at ordinal a0: its class, its fields, and the index of the next one.
pub(crate) fn item(case: &Case, p: &[u8]) -> Result<Answer, Fault> {
    let [ordinal] = case.args::<1>(Payloads::P)?;
    let x = plane_item(p, ordinal as usize);
    let told = Told::Item {
        item: x.item,
        next: x.next,
    };
    Ok(answer(x.refused, x.place, told))
}

// Op 3: the text of the frame p at ordinal a0, by its length and check sum.
pub(crate) fn text(case: &Case, p: &[u8]) -> Result<Answer, Fault> {
    let [ordinal] = case.args::<1>(Payloads::P)?;
    let x = plane_text(p, ordinal as usize);
    let text = p
        .get(x.offset..)
        .and_then(|rest| rest.get(..x.length))
        .ok_or(Fault::BadCase)?;
    Ok(Ok(Told::Bytes {
        length: text.len(),
        sum: check_sum(text),
    }))
}
