// The calls on a record.
ghost use Rattle.std.specs.Prelude.{map};
ghost use Rattle.editor.specs.Views.{asked};
ghost use Rattle.exports.specs.Promises.{DoneFlat, RecordFlat, EntryFlat, StoppedFlat, RecordTold, EntryTold, Opened, Edited, EditedAll, Restored};

use crate::answers::{PlaneDone, PlaneEntry, PlaneRecord, PlaneStopped};
use book::refusal::Refusal;
use corrections::{Stopped, edit_all};
use editor::editing::{Correction, edit};
use editor::opening::open;
use editor::restoring::restore;
use records::answers::{Entry, Record};
use records::{entry, record};

impl From<Result<Record, Refusal>> for PlaneRecord {
    ghost from_gives = { RecordFlat };

    #[tactic(auto, unfolding(crate::specs::Flat::flat_record))]
    fn from(found: Result<Record, Refusal>) -> PlaneRecord {
        match found {
            Ok(x) => PlaneRecord {
                length: x.length,
                count: x.count,
                total: x.total,
                ..PlaneRecord::default()
            },
            Err(r) => PlaneRecord {
                refused: r.fault.number(),
                place: r.place,
                ..PlaneRecord::default()
            },
        }
    }
}

// Whether a buffer begins with a record, and of what lengths and entry count: `records::record`.
pub fn plane_record(buffer: &[u8]) -> PlaneRecord
    ensures { RecordTold buffer.now result }
{
    record(buffer).into()
}

// Of an entry's stamp its time is told; the desk is 0 in every record that is accepted.
impl From<Result<Entry, Refusal>> for PlaneEntry {
    ghost from_gives = { EntryFlat };

    #[tactic(auto, unfolding(crate::specs::Flat::flat_entry))]
    fn from(found: Result<Entry, Refusal>) -> PlaneEntry {
        match found {
            Ok(x) => PlaneEntry {
                word: x.word,
                kind: x.kind,
                old_value: x.old,
                new_value: x.new,
                operator_id: x.operator,
                reason: x.reason,
                timed: x.stamp.is_some() as u8,
                time: x.stamp.map_or(0, |stamp| stamp.time),
                ..PlaneEntry::default()
            },
            Err(r) => PlaneEntry {
                refused: r.fault.number(),
                place: r.place,
                ..PlaneEntry::default()
            },
        }
    }
}

// Entry n of a record, 1 the oldest: `records::entry`.
pub fn plane_entry(buffer: &[u8], n: usize) -> PlaneEntry
    ensures { EntryTold buffer.now n result }
{
    entry(buffer, n).into()
}

impl From<Result<(), Refusal>> for PlaneDone {
    ghost from_gives = { DoneFlat };

    fn from(done: Result<(), Refusal>) -> PlaneDone {
        match done {
            Ok(()) => PlaneDone::default(),
            Err(r) => PlaneDone {
                refused: r.fault.number(),
                place: r.place,
            },
        }
    }
}

// Opens a record of the frame at the start of the buffer: `editor::open`.
pub fn plane_open(buffer: &mut [u8], frame: &[u8]) -> PlaneDone
    ensures { Opened frame.now buffer.old result buffer.new }
{
    open(buffer, frame).into()
}

// Edits the record in the buffer: `editor::edit`.
pub fn plane_edit(buffer: &mut [u8], correction: Correction) -> PlaneDone
    ensures { Edited buffer.old (asked correction) result buffer.new }
{
    edit(buffer, correction).into()
}

impl From<Result<(), Stopped>> for PlaneStopped {
    ghost from_gives = { StoppedFlat };

    #[tactic(auto, unfolding(crate::specs::Flat::flat_stopped))]
    fn from(answer: Result<(), Stopped>) -> PlaneStopped {
        match answer {
            Ok(()) => PlaneStopped::default(),
            Err(x) => PlaneStopped {
                refused: x.refusal.fault.number(),
                place: x.refusal.place,
                position: x.position,
            },
        }
    }
}

// Makes a list of corrections in the record in the buffer, up to the first that is refused: `corrections::edit_all`.
pub fn plane_edit_all(buffer: &mut [u8], corrections: &[Correction]) -> PlaneStopped
    ensures { EditedAll buffer.old (map asked corrections.now) result buffer.new }
{
    edit_all(buffer, corrections).into()
}

// Restores the frame of a record as it stood after its first k edits, to the start of `out`: `editor::restore`.
pub fn plane_restore(buffer: &[u8], k: usize, out: &mut [u8]) -> PlaneDone
    ensures { Restored buffer.now k out.old result out.new }
{
    restore(buffer, k, out).into()
}
