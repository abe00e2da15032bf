// The ops over the writer: begin, add, add text, close.
use crate::cases::{Case, Fault, Payloads, up_to};
use crate::reply::{Answer, NotOk, Told, answer};
use book::class::Class;
use exports::answers::{PlaneItem, PlaneWritten};
use exports::writing::{plane_add, plane_add_text, plane_begin, plane_close};

fn written(x: PlaneWritten) -> Answer {
    answer(x.refused, x.place, Told::Number(x.length as u64))
}

// Op 7: begins a frame of kind a0, card a1 and sequence word a2 in p.
pub(crate) fn begin(case: &Case, p: &mut [u8]) -> Result<Answer, Fault> {
    let [kind, card, sequence] = case.args::<3>(Payloads::P)?;
    let kind = 1 + u16::try_from(up_to(2, kind)?)?;
    Ok(written(plane_begin(p, kind, u16::try_from(card)?, u16::try_from(sequence)?)))
}

// The item of a class with its fields in the book's order: each is within its width, and those that the class does not have are zero.
fn item_of(class: Class, fields: [u64; 3]) -> Result<PlaneItem, Fault> {
    let mut item = PlaneItem {
        item_class: class.row(),
        ..PlaneItem::default()
    };
    match (class, fields) {
        (Class::Channel | Class::Histogram, [card, chip, channel]) => {
            item.card = u16::try_from(card)?;
            item.chip = u16::try_from(chip)?;
            item.channel = u16::try_from(channel)?;
        }
        (Class::HitCount, [card, chip, hits]) => {
            item.card = u16::try_from(card)?;
            item.chip = u16::try_from(chip)?;
            item.hits = u16::try_from(hits)?;
        }
        (Class::Sample, [value, 0, 0]) => item.value = u16::try_from(value)?,
        (Class::Bin, [bin, count, 0]) => {
            item.bin = u16::try_from(bin)?;
            item.count = u32::try_from(count)?;
        }
        (Class::LastCell, [chip, cell, 0]) => {
            item.chip = u16::try_from(chip)?;
            item.cell = u16::try_from(cell)?;
        }
        (Class::TimeBin, [time, 0, 0]) => item.time = u16::try_from(time)?,
        (Class::StartEvent, [kind, timestamp, number]) => {
            item.kind = u16::try_from(kind)?;
            item.timestamp = timestamp;
            item.number = u32::try_from(number)?;
        }
        (Class::EndEvent, [size, 0, 0]) => item.size = u32::try_from(size)?,
        (Class::ContinueEvent, [number, 0, 0]) => item.number = u32::try_from(number)?,
        _ => return Err(Fault::BadCase),
    }
    Ok(item)
}

// Op 8: adds an item of class a1 with the fields a2, a3, a4 to p of length a0. The line of a case whose fields are none of an item has the buffer
// behind it all the same.
pub(crate) fn add(case: &Case, p: &mut [u8]) -> Result<Answer, Fault> {
    let [length, class, a, b, c] = case.args::<5>(Payloads::P)?;
    let class = Class::try_from(u32::try_from(class)?)?;
    Ok(match item_of(class, [a, b, c]) {
        Ok(item) => written(plane_add(p, length as usize, item)),
        Err(_) => Err(NotOk::BadCase),
    })
}

// Op 9: adds the text q to p of length a0.
pub(crate) fn add_text(case: &Case, p: &mut [u8], q: &[u8]) -> Result<Answer, Fault> {
    let [length] = case.args::<1>(Payloads::PAndQ)?;
    Ok(written(plane_add_text(p, length as usize, q)))
}

// Op 10: closes p of length a0.
pub(crate) fn close(case: &Case, p: &mut [u8]) -> Result<Answer, Fault> {
    let [length] = case.args::<1>(Payloads::P)?;
    Ok(written(plane_close(p, length as usize)))
}
