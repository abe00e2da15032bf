// The samples question.
ghost use Rattle.std.specs.Prelude.{◌≤◌, length};
ghost use Rattle.format.specs.Questions.{channel_in, samples_left};
ghost use Rattle.format.specs.Cursor.{items_from};
ghost use Rattle.questions.specs.Views.{view_filled};
ghost use Rattle.questions.specs.Sought.{SamplesSought, Filling};
ghost use Rattle.questions.specs.Promises.{SamplesAnswered};

use crate::event::inside_at;
use crate::fill::{SAMPLES, clear_samples, fill_samples};
use crate::items::Items;
use crate::scan::{Wanted, seek_channel};
use book::refusal::{Fault, Refusal};

impl Items<'_> {
    // Where the samples of a channel begin: behind its header, in event e.
    pub(crate) fn find_channel(self, e: usize, wanted: Wanted) -> Option<usize>
        ensures { SamplesSought self.entry.bytes.now e wanted.chip wanted.channel result }
    {
        let at = self.find_event(e)?;
        seek_channel(self.bytes, inside_at(self.bytes, at), wanted)
    }

    // The samples of a channel in an event.
    fn samples(self, e: usize, wanted: Wanted, out: &mut [u16]) -> Result<(), Refusal>
        requires { 512 ≤ length out.old }
        ensures { Filling (channel_in e wanted.chip wanted.channel (items_from self.entry.bytes.now 3)) samples_left out.old (view_filled result) out.new }
    {
        let at = self.find_channel(e, wanted).ok_or(Fault::Absent)?;
        clear_samples(out);
        fill_samples(self.bytes, at, out);
        Ok(())
    }
}

// The samples of event e, from 0, of a chip and a channel: into the first 512 words lent, each at its time, 0xFFFF where no sample stands.
// Refuses as `read` does, then 12 where fewer words are lent, then 13 where there is no such event or channel in it; a refusal leaves all of
// them as found.
pub fn samples(s: &[u8], e: usize, chip: u16, channel: u16, out: &mut [u16]) -> Result<(), Refusal>
    ensures { SamplesAnswered s.now e chip channel out.old result out.new }
{
    let items = Items::of(s)?;
    if out.len() < SAMPLES {
        return Err(Fault::Room.into());
    }
    items.samples(e, Wanted { chip, channel }, out)
}
