// The plane record, a frame with its edit history, is judged: record, entry, and what stands at a word of its frame.
#![tactic(auto)]

ghost use Rattle.std.specs.Prelude.{◌≡◌, ℕ, ◌≤◌, length, get_or};
ghost use Rattle.ledger.specs.Versions.{format_for};
ghost use Rattle.records.specs.Views.{view_judged, summary_of, history_judged};
ghost use Rattle.records.specs.Promises.{SpotTold, JudgedTo, Recorded, EntryTold};

pub mod answers;
pub mod entries;
pub mod header;
pub mod history;
pub mod restoring;
pub mod scan;
pub mod values;

use answers::{Entry, Judged, Record, Spot};
use book::refusal::{Fault, Refusal};
use book::words::word;
use entries::{entry_of, entry_size};
use frame::head::MOST;
use frame::reading::read;
use history::{History, spot_noted};
use scan::spot_in;

// The Sample or Bin that begins at word w of a frame, with its kind, value and header; nothing where another item or none begins there, and
// where the bytes are no frame.
pub fn spot(f: &[u8], w: usize) -> Option<Spot>
    ensures { SpotTold f.now w result }
{
    match read(f) {
        Ok(_frame) => spot_in(f, w),
        Err(_refusal) => None,
    }
}

// The most words of a frame.
pub(crate) const WORDS: usize = MOST / 2;

impl History<'_> {
    // What is answered of the record, in lent memory: a map of 4,096 zeros, and room for a copy of the frame.
    fn judge_in(self, map: &mut [u16], scratch: &mut [u8], w: usize) -> Result<Judged, Refusal>
        requires { (length self.frame.now ≤ length scratch.old) × (4096 ≤ length map.old) × ((i : ℕ) → get_or map.old i 0 ≡ 0) }
        ensures { view_judged result ≡ history_judged (format_for self.entry.version) self.entry.frame.now self.entry.buf.now (summary_of self.entry.lengths) w }
    {
        let len = self.frame.len();
        self.unwind(&mut scratch[..len], map)?;
        let spot = spot_noted(self.frame, map, w);
        Ok(Judged {
            record: self.lengths,
            spot,
        })
    }

    // The same with memory of its own. The arrays stand here and are lent on: in the function that works on them every goal would show all their zeros.
    fn judge(self, w: usize) -> Result<Judged, Refusal>
        ensures { view_judged result ≡ history_judged (format_for self.entry.version) self.entry.frame.now self.entry.buf.now (summary_of self.entry.lengths) w }
    {
        let mut map = [0u16; WORDS];
        let mut scratch = [0u8; MOST];
        self.judge_in(&mut map, &mut scratch, w)
    }
}

// Whether a buffer begins with a record, as `record` answers, and what stands at word w of its frame, as `spot` answers.
pub fn judge(buf: &[u8], w: usize) -> Result<Judged, Refusal>
    ensures { JudgedTo buf.now w result }
{
    let history = History::of(buf)?;
    history.judge(w)
}

// Whether a buffer begins with a record, and of what frame length, entry count and total length. Refuses by 20, then as the frame is refused,
// then by 21 with the number of the newest entry that does not fit.
pub fn record(buf: &[u8]) -> Result<Record, Refusal>
    ensures { Recorded buf.now result }
{
    // Any word will do; what stands there is left aside.
    let judged = judge(buf, 0)?;
    Ok(judged.record)
}

// Entry j of a record, from 1 as the oldest. Refuses as `record` does, then by 26 where j is 0 or above the entry count.
pub fn entry(buf: &[u8], j: usize) -> Result<Entry, Refusal>
    ensures { EntryTold buf.now j result }
{
    let x = record(buf)?;
    if (1 <= j) & (j <= x.count) {
        let version = word(buf, Record::VERSION_WORD);
        let at = Record::HEADER + x.length + entry_size(version) * (j - 1);
        return Ok(entry_of(&buf[at..], version));
    }
    Err(Fault::NoEntry.into())
}
