// The questions on a frame's events, samples and counts, and on the word of a sample or a bin.
ghost use Rattle.exports.specs.Promises.{EventTold, Sampled, Counted, SampleWordTold, BinWordTold};

use exports::answers::{PlaneDone, PlaneEvent, PlaneWord};
use exports::asking;

#[unsafe(no_mangle)]
pub extern "C" fn plane_event(frame: &[u8], e: usize) -> PlaneEvent
    ensures { EventTold frame.now e result }
{
    asking::plane_event(frame, e)
}

#[unsafe(no_mangle)]
pub extern "C" fn plane_samples(
    frame: &[u8],
    e: usize,
    chip: u16,
    channel: u16,
    out: &mut [u16],
) -> PlaneDone
    ensures { Sampled frame.now e chip channel out.old result out.new }
{
    asking::plane_samples(frame, e, chip, channel, out)
}

#[unsafe(no_mangle)]
pub extern "C" fn plane_counts(frame: &[u8], chip: u16, channel: u16, out: &mut [u32]) -> PlaneDone
    ensures { Counted frame.now chip channel out.old result out.new }
{
    asking::plane_counts(frame, chip, channel, out)
}

#[unsafe(no_mangle)]
pub extern "C" fn plane_sample_word(
    frame: &[u8],
    e: usize,
    chip: u16,
    channel: u16,
    time: u16,
) -> PlaneWord
    ensures { SampleWordTold frame.now e chip channel time result }
{
    asking::plane_sample_word(frame, e, chip, channel, time)
}

#[unsafe(no_mangle)]
pub extern "C" fn plane_bin_word(frame: &[u8], chip: u16, channel: u16, bin: u16) -> PlaneWord
    ensures { BinWordTold frame.now chip channel bin result }
{
    asking::plane_bin_word(frame, chip, channel, bin)
}
