// The word of a sample and the word of a bin: the index that a correction takes.
ghost use Rattle.std.specs.Prelude.{◌≡◌};
ghost use Rattle.format.specs.Questions.{present, sample_word, bin_word};
ghost use Rattle.format.specs.Cursor.{items_from, On};
ghost use Rattle.questions.specs.Views.{view_word};
ghost use Rattle.questions.specs.Sought.{place_of, sample_word_in, bin_word_in};
ghost use Rattle.questions.specs.Promises.{SampleWordAnswered, BinWordAnswered};

use crate::items::Items;
use crate::scan::{Wanted, word_in};
use book::class::Class;
use book::items::{Bin, TimeBin};
use book::refusal::{Fault, Refusal};

// Where the Sample at a time stands, of the Samples and Time bins from here on.
fn seek_sample(s: &[u8], from: usize, time: usize) -> Option<usize>
    requires { On s.now from }
    ensures { place_of result ≡ sample_word time 0 from (items_from s.now from) }
{
    let last = s.len() / 2 - 1;
    // Here as in the loop below the index jumps by an item's length: it is not one that is counted by hand.
    let mut at = from;
    let mut next: usize = 0;
    while at < last {
        let w = word_in(s, at);
        if w >> 12 == Class::SAMPLE >> 12 {
            if next == time {
                return Some(at);
            }
            next += 1;
            at += 1;
            continue;
        }
        if w >> 9 != Class::TIME_BIN >> 9 {
            return None;
        }
        next = TimeBin::of_word(w).time as usize;
        at += 1;
    }
    None
}

// Where the Bin of a number stands, of the Bins from here on.
fn seek_bin(s: &[u8], from: usize, bin: u16) -> Option<usize>
    requires { On s.now from }
    ensures { place_of result ≡ bin_word bin from (items_from s.now from) }
{
    let last = s.len() / 2 - 1;
    let mut at = from;
    while at < last {
        let w = word_in(s, at);
        if w >> 12 != Class::BIN >> 12 {
            return None;
        }
        if Bin::of_word(w) == bin {
            return Some(at);
        }
        at += 3;
    }
    None
}

impl Items<'_> {
    // Behind the header of a channel in event e.
    fn find_sample(self, e: usize, wanted: Wanted, time: u16) -> Option<usize>
        ensures { present (place_of result) ≡ sample_word_in (items_from self.entry.bytes.now 3) e wanted.chip wanted.channel time }
    {
        let at = self.find_channel(e, wanted)?;
        seek_sample(self.bytes, at, time as usize)
    }

    // Behind the header of a histogram.
    fn find_bin(self, wanted: Wanted, bin: u16) -> Option<usize>
        ensures { present (place_of result) ≡ bin_word_in (items_from self.entry.bytes.now 3) wanted.chip wanted.channel bin }
    {
        let at = self.find_histogram(wanted)?;
        seek_bin(self.bytes, at, bin)
    }
}

// The word index of the Sample at a time, of event e, from 0, and of a chip and a channel. Refuses as `read` does, then 13 where there is no such
// event, no such channel in it, or no sample at that time.
pub fn sample_word(s: &[u8], e: usize, chip: u16, channel: u16, time: u16) -> Result<usize, Refusal>
    ensures { SampleWordAnswered s.now e chip channel time result }
{
    let items = Items::of(s)?;
    let sample = items.find_sample(e, Wanted { chip, channel }, time);
    sample.ok_or(Fault::Absent.into())
}

// The word index of the Bin of a number, of the histogram of a chip and a channel. Refuses as `read` does, then 13 where there is no such histogram
// or no such bin in it.
pub fn bin_word(s: &[u8], chip: u16, channel: u16, bin: u16) -> Result<usize, Refusal>
    ensures { BinWordAnswered s.now chip channel bin result }
{
    let items = Items::of(s)?;
    let found = items.find_bin(Wanted { chip, channel }, bin);
    found.ok_or(Fault::Absent.into())
}
