// Lent words, cleared and then filled with what stands in a frame.
ghost use Rattle.std.specs.Prelude.{◌≡◌, ◌≤◌, length};
ghost use Rattle.format.specs.Questions.{cleared, fill_samples, fill_counts};
ghost use Rattle.format.specs.Cursor.{items_from, On};
ghost use Rattle.questions.specs.Sought.{Headed};

use crate::scan::{long_in, word_in};
use book::class::Class;
use book::items::{Bin, Sample, TimeBin};

// The samples of a channel, one for each time.
pub const SAMPLES: usize = 512;

// What stands where no sample stands.
pub const BLANK: u16 = 0xFFFF;

// The counts of a histogram.
pub const COUNTS: usize = 4096;

// 0 where no bin stands.
pub(crate) fn clear_counts(out: &mut [u32])
    requires { 4096 ≤ length out.old }
    ensures { out.new ≡ cleared 4096 0 out.old }
{
    out[..COUNTS].fill(0);
}

// The counts of the Bins from here on, up to an item that is none.
pub(crate) fn fill_counts(s: &[u8], from: usize, out: &mut [u32])
    requires { On s.now from × (4096 ≤ length out.old) }
    ensures { out.new ≡ fill_counts (items_from s.now from) out.old }
{
    let last = s.len() / 2 - 1;
    // Here as in the loop below the index jumps by an item's length: it is not one that is counted by hand.
    let mut at = from;
    while at < last {
        let w = word_in(s, at);
        if w >> 12 != Class::BIN >> 12 {
            return;
        }
        let bin = Bin::of_word(w) as usize;
        out[bin] = long_in(s, at + 1);
        at += 3;
    }
}

// 0xFFFF where no sample stands.
pub(crate) fn clear_samples(out: &mut [u16])
    requires { 512 ≤ length out.old }
    ensures { out.new ≡ cleared 512 0xFFFF out.old }
{
    out[..SAMPLES].fill(BLANK);
}

// The Samples from here on, each at its time, up to an item that is neither a Sample nor a Time bin.
pub(crate) fn fill_samples(s: &[u8], from: usize, out: &mut [u16])
    requires { Headed s.now from × (512 ≤ length out.old) }
    ensures { out.new ≡ fill_samples 0 (items_from s.now from) out.old }
{
    let last = s.len() / 2 - 1;
    let mut at = from;
    let mut time: usize = 0;
    while at < last {
        let w = word_in(s, at);
        if w >> 12 == Class::SAMPLE >> 12 {
            out[time] = Sample::of_word(w).value;
            time += 1;
            at += 1;
            continue;
        }
        if w >> 9 != Class::TIME_BIN >> 9 {
            return;
        }
        time = TimeBin::of_word(w).time as usize;
        at += 1;
    }
}
