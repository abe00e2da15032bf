// A record is judged, and on the way its frame is kept as it stood after an earlier edit.
ghost use Rattle.std.specs.Prelude.{◌≡◌, ℕ, ◌≤◌, length, get_or};
ghost use Rattle.ledger.specs.Versions.{format_for};
ghost use Rattle.records.specs.Undoing.{Kept};
ghost use Rattle.records.specs.Promises.{RestoredTo};

use crate::WORDS;
use crate::answers::Record;
use crate::history::History;
use book::refusal::Refusal;
use book::words::copy;
use frame::head::MOST;

impl History<'_> {
    // Refused by 21 with the number of the newest entry that does not fit; else the frame as it stood after the first k entries is written to the start
    // of `out`, where there are so many and it has room. In lent memory: a map of 4,096 zeros, and room for two copies of the frame.
    fn keep_in(
        self,
        map: &mut [u16],
        scratch: &mut [u8],
        kept: &mut [u8],
        k: usize,
        out: &mut [u8],
    ) -> Result<(), Refusal>
        requires { (length self.frame.now ≤ length scratch.old) × (length self.frame.now ≤ length kept.old) × (4096 ≤ length map.old) × ((i : ℕ) → get_or map.old i 0 ≡ 0) }
        ensures { Kept (format_for self.entry.version) self.entry.frame.now self.entry.buf.now self.entry.lengths.count k out.old result out.new }
    {
        let len = self.frame.len();
        self.unwind_to(&mut scratch[..len], map, &mut kept[..len], k)?;
        if (k <= self.lengths.count) & (len <= out.len()) {
            copy(&kept[..len], out);
        }
        Ok(())
    }

    // The same with memory of its own.
    fn keep(self, k: usize, out: &mut [u8]) -> Result<(), Refusal>
        ensures { Kept (format_for self.entry.version) self.entry.frame.now self.entry.buf.now self.entry.lengths.count k out.old result out.new }
    {
        let mut map = [0u16; WORDS];
        let mut scratch = [0u8; MOST];
        let mut kept = [0u8; MOST];
        self.keep_in(&mut map, &mut scratch, &mut kept, k, out)
    }
}

// Whether a buffer begins with a record, as `record` answers; and where it does, has k entries at least, and `out` is long enough, the frame as it stood
// after the first k is written to the start of `out`. Else `out` is as found.
pub fn restored_to(buf: &[u8], k: usize, out: &mut [u8]) -> Result<Record, Refusal>
    ensures { RestoredTo buf.now k out.old result out.new }
{
    let history = History::of(buf)?;
    history.keep(k, out)?;
    Ok(history.lengths)
}
