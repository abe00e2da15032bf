// The frame of a record as it stood after an earlier edit.
ghost use Rattle.std.specs.Prelude.{◌≡◌};
ghost use Rattle.editor.specs.Views.{view_done};
ghost use Rattle.editor.specs.Promises.{Restored};

use crate::answers::need;
use book::refusal::{Fault, Refusal};
use records::restoring::restored_to;

// Restores the frame of a record, of either version, as it stood after its first k edits, k = 0 as it was recorded. Refuses as judging the record
// does, then by 26 where k is above the entry count, and by 12 where the second buffer is under the frame's length. Accepted, it has written the
// frame to the start of the second buffer and nothing beyond; refused, that buffer is as found. The record is only read.
pub fn restore(buf: &[u8], k: usize, out: &mut [u8]) -> Result<(), Refusal>
    ensures { Restored buf.now k out.old (view_done result) out.new }
{
    let room = out.len();
    let x = restored_to(buf, k, out)?;
    need(k <= x.count, Fault::NoEntry)?;
    need(x.length <= room, Fault::Room)
}
