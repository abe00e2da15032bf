// The calls on a record.
ghost use Rattle.std.specs.Prelude.{map};
ghost use Rattle.editor.specs.Views.{asked};
ghost use Rattle.exports.specs.Promises.{RecordTold, EntryTold, Opened, Edited, EditedAll, Restored};

use editor::editing::Correction;
use exports::answers::{PlaneDone, PlaneEntry, PlaneRecord, PlaneStopped};
use exports::recording;

#[unsafe(no_mangle)]
pub extern "C" fn plane_record(buffer: &[u8]) -> PlaneRecord
    ensures { RecordTold buffer.now result }
{
    recording::plane_record(buffer)
}

#[unsafe(no_mangle)]
pub extern "C" fn plane_entry(buffer: &[u8], n: usize) -> PlaneEntry
    ensures { EntryTold buffer.now n result }
{
    recording::plane_entry(buffer, n)
}

#[unsafe(no_mangle)]
pub extern "C" fn plane_open(buffer: &mut [u8], frame: &[u8]) -> PlaneDone
    ensures { Opened frame.now buffer.old result buffer.new }
{
    recording::plane_open(buffer, frame)
}

#[unsafe(no_mangle)]
pub extern "C" fn plane_edit(buffer: &mut [u8], correction: Correction) -> PlaneDone
    ensures { Edited buffer.old (asked correction) result buffer.new }
{
    recording::plane_edit(buffer, correction)
}

#[unsafe(no_mangle)]
pub extern "C" fn plane_edit_all(buffer: &mut [u8], corrections: &[Correction]) -> PlaneStopped
    ensures { EditedAll buffer.old (map asked corrections.now) result buffer.new }
{
    recording::plane_edit_all(buffer, corrections)
}

#[unsafe(no_mangle)]
pub extern "C" fn plane_restore(buffer: &[u8], k: usize, out: &mut [u8]) -> PlaneDone
    ensures { Restored buffer.now k out.old result out.new }
{
    recording::plane_restore(buffer, k, out)
}
