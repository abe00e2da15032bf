// The questions on a frame's events, samples and counts, and on the word of a sample or a bin.
ghost use Rattle.exports.specs.Promises.{EventFlat, WordFlat, EventTold, Sampled, Counted, SampleWordTold, BinWordTold};

use crate::answers::{PlaneDone, PlaneEvent, PlaneWord};
use book::refusal::Refusal;
use questions::answers::Event;
use questions::counts::counts;
use questions::event::event;
use questions::samples::samples;
use questions::words::{bin_word, sample_word};

impl From<Result<Event, Refusal>> for PlaneEvent {
    ghost from_gives = { EventFlat };

    #[tactic(auto, unfolding(crate::specs::Flat::flat_event))]
    fn from(found: Result<Event, Refusal>) -> PlaneEvent {
        match found {
            Ok(x) => PlaneEvent {
                began: x.began.is_some() as u8,
                ended: x.ended.is_some() as u8,
                kind: x.began.map_or(0, |b| b.kind),
                number: x.number,
                timestamp: x.began.map_or(0, |b| b.timestamp),
                size: x.ended.unwrap_or(0),
                index: x.index,
                ..PlaneEvent::default()
            },
            Err(r) => PlaneEvent {
                refused: r.fault.number(),
                place: r.place,
                ..PlaneEvent::default()
            },
        }
    }
}

// Event e of a frame, from 0: `questions::event`.
pub fn plane_event(frame: &[u8], e: usize) -> PlaneEvent
    ensures { EventTold frame.now e result }
{
    event(frame, e).into()
}

// The samples of event e, a chip and a channel into the first 512 words of `out`: `questions::samples`.
pub fn plane_samples(frame: &[u8], e: usize, chip: u16, channel: u16, out: &mut [u16]) -> PlaneDone
    ensures { Sampled frame.now e chip channel out.old result out.new }
{
    samples(frame, e, chip, channel, out).into()
}

// The counts of a chip's and a channel's histogram into the first 4,096 words of `out`: `questions::counts`.
pub fn plane_counts(frame: &[u8], chip: u16, channel: u16, out: &mut [u32]) -> PlaneDone
    ensures { Counted frame.now chip channel out.old result out.new }
{
    counts(frame, chip, channel, out).into()
}

impl From<Result<usize, Refusal>> for PlaneWord {
    ghost from_gives = { WordFlat };

    #[tactic(auto, unfolding(crate::specs::Flat::flat_word))]
    fn from(found: Result<usize, Refusal>) -> PlaneWord {
        match found {
            Ok(word) => PlaneWord {
                word,
                ..PlaneWord::default()
            },
            Err(r) => PlaneWord {
                refused: r.fault.number(),
                place: r.place,
                ..PlaneWord::default()
            },
        }
    }
}

// The word of the sample at a time, of event e, a chip and a channel: `questions::sample_word`.
pub fn plane_sample_word(frame: &[u8], e: usize, chip: u16, channel: u16, time: u16) -> PlaneWord
    ensures { SampleWordTold frame.now e chip channel time result }
{
    sample_word(frame, e, chip, channel, time).into()
}

// The word of the bin of a number, of a chip's and a channel's histogram: `questions::bin_word`.
pub fn plane_bin_word(frame: &[u8], chip: u16, channel: u16, bin: u16) -> PlaneWord
    ensures { BinWordTold frame.now chip channel bin result }
{
    bin_word(frame, chip, channel, bin).into()
}
