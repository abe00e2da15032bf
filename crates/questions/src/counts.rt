// The counts question.
ghost use Rattle.std.specs.Prelude.{◌≤◌, length};
ghost use Rattle.format.specs.Questions.{present, past, is_histogram, counts_left};
ghost use Rattle.format.specs.Cursor.{items_from};
ghost use Rattle.questions.specs.Views.{view_filled};
ghost use Rattle.questions.specs.Sought.{HistogramSought, Filling};
ghost use Rattle.questions.specs.Promises.{CountsAnswered};

use crate::fill::{COUNTS, clear_counts, fill_counts};
use crate::items::Items;
use crate::scan::{Wanted, seek_histogram};
use book::refusal::{Fault, Refusal};
use rules::state::Kind;

impl Items<'_> {
    // Where the bins of a histogram begin: only a monitor frame has histograms.
    pub(crate) fn find_histogram(self, wanted: Wanted) -> Option<usize>
        ensures { HistogramSought self.entry.bytes.now wanted.chip wanted.channel result }
    {
        if self.kind != Kind::Monitor {
            return None;
        }
        seek_histogram(self.bytes, wanted)
    }

    // The counts of a histogram.
    fn counts(self, wanted: Wanted, out: &mut [u32]) -> Result<(), Refusal>
        requires { 4096 ≤ length out.old }
        ensures { Filling (present (past (is_histogram wanted.chip wanted.channel) (items_from self.entry.bytes.now 3))) counts_left out.old (view_filled result) out.new }
    {
        let at = self.find_histogram(wanted).ok_or(Fault::Absent)?;
        clear_counts(out);
        fill_counts(self.bytes, at, out);
        Ok(())
    }
}

// The counts of the histogram of a chip and a channel: into the first 4,096 words lent, each at its bin's number, 0 where no bin stands.
// Refuses as `read` does, then 12 where fewer words are lent, then 13 where there is no such histogram; a refusal leaves all of them as found.
pub fn counts(s: &[u8], chip: u16, channel: u16, out: &mut [u32]) -> Result<(), Refusal>
    ensures { CountsAnswered s.now chip channel out.old result out.new }
{
    let items = Items::of(s)?;
    if out.len() < COUNTS {
        return Err(Fault::Room.into());
    }
    items.counts(Wanted { chip, channel }, out)
}
