// The ops over the questions on a frame: events, samples, counts, the word of a sample and of a bin.
use crate::cases::{Case, Fault, Payloads, up_to};
use crate::reply::{Answer, Reply, Told, answer};
use exports::answers::PlaneWord;
use exports::asking::{
    plane_bin_word, plane_counts, plane_event, plane_sample_word, plane_samples,
};

// Op 4: event a0 of the frame p: type, timestamp, number, size, index.
pub(crate) fn event(case: &Case, p: &[u8]) -> Result<Answer, Fault> {
    let [number] = case.args::<1>(Payloads::P)?;
    let x = plane_event(p, number as usize);
    Ok(answer(x.refused, x.place, Told::Event(x)))
}

// Op 5: samples of event a0, chip a1, channel a2 of the frame p into a3 words, each a4 before. They are a part of an array, here as in op 6, and no
// `Vec`: no heap is asked for.
pub(crate) fn samples(case: &Case, p: &[u8]) -> Result<Reply<'static>, Fault> {
    let [event, chip, channel, n, before] = case.args::<5>(Payloads::P)?;
    let (chip, channel) = (u16::try_from(chip)?, u16::try_from(channel)?);
    let n = up_to(600, n)? as usize;
    let mut array = [u16::try_from(before)?; 600];
    let out = &mut array[..n];
    let x = plane_samples(p, event as usize, chip, channel, out);
    Ok(Reply::lending(answer(x.refused, x.place, Told::Nothing), out))
}

// Op 6: counts of chip a0, channel a1 of the frame p into a2 words of 32 bits, each a3 before.
pub(crate) fn counts(case: &Case, p: &[u8]) -> Result<Reply<'static>, Fault> {
    let [chip, channel, n, before] = case.args::<4>(Payloads::P)?;
    let (chip, channel) = (u16::try_from(chip)?, u16::try_from(channel)?);
    let n = up_to(4200, n)? as usize;
    let mut array = [u32::try_from(before)?; 4200];
    let out = &mut array[..n];
    let x = plane_counts(p, chip, channel, out);
    Ok(Reply::lending(answer(x.refused, x.place, Told::Nothing), out))
}

fn worded(x: PlaneWord) -> Answer {
    answer(x.refused, x.place, Told::Number(x.word as u64))
}

// Op 18: the word of the sample of event a0, chip a1, channel a2 at time a3 of the frame p.
pub(crate) fn sample_word(case: &Case, p: &[u8]) -> Result<Answer, Fault> {
    let [event, chip, channel, time] = case.args::<4>(Payloads::P)?;
    let (chip, channel) = (u16::try_from(chip)?, u16::try_from(channel)?);
    Ok(worded(plane_sample_word(p, event as usize, chip, channel, u16::try_from(time)?)))
}

// Op 19: the word of the bin of chip a0, channel a1, number a2 of the frame p.
pub(crate) fn bin_word(case: &Case, p: &[u8]) -> Result<Answer, Fault> {
    let [chip, channel, number] = case.args::<3>(Payloads::P)?;
    let (chip, channel) = (u16::try_from(chip)?, u16::try_from(channel)?);
    Ok(worded(plane_bin_word(p, chip, channel, u16::try_from(number)?)))
}
