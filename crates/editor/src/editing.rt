// An edit of a record: the value of one item is changed, and an entry of the history says so.
ghost use Rattle.std.specs.Prelude.{◌≡◌, ◌<◌};
ghost use Rattle.ledger.specs.Records.{frame_in};
ghost use Rattle.ledger.specs.Calls.{edit_written};
ghost use Rattle.ledger.specs.VersionTwo.{version_two};
ghost use Rattle.ledger.specs.PlaneFrames.{plane_frames};
ghost use Rattle.records.specs.Views.{view_spot_kind, view_spot, summary_of};
ghost use Rattle.editor.specs.Views.{view_done, asked, item_tests};
ghost use Rattle.editor.specs.Promises.{Edited};
ghost use Rattle.editor.specs.Writes.{Known, Holds, Editable};

use crate::answers::need;
use crate::stores::put_words;
use book::items::Item;
use book::refusal::{Fault, Refusal};
use book::words::word;
use cursor::standing::{FoundItem, item_at};
use records::answers::{Entry, Record, Spot, SpotKind, Stamp};
use records::entries::put_entry;
use records::history::signed;
use records::judge;
use records::values::{legal, put_value};

// What an edit asks: the item by the index of its first word, its new value, who corrects it for what reason, and when, by the caller's clock. The
// numbers are wide enough that every one out of range can be given, and is refused.
#[repr(C)]
#[derive(Clone, Copy)]
pub struct Correction {
    pub word: usize,
    pub value: u32,
    pub operator: u32,
    pub reason: u32,
    pub time: u64,
}

// The number of a kind in an entry.
fn numbered(kind: SpotKind) -> u16
    ensures { result ≡ view_spot_kind kind }
{
    kind as u16
}

// The tests of an edit of an accepted record at an item of the kind with the value: 23, 24, 25, 12; to be read against the meaning's list of them.
fn edit_tests(
    c: Correction,
    x: Record,
    kind: SpotKind,
    value: u32,
    room: usize,
) -> Result<(), Refusal>
    requires { x.total < 65536 }
    ensures { view_done result ≡ item_tests (asked c) (summary_of x) (view_spot_kind kind) value room }
{
    let fresh = legal(numbered(kind), c.value);
    need(fresh & (value != c.value), Fault::NewValue)?;
    let named = signed(c.operator, c.reason);
    need(named & (c.time <= Entry::LAST_TIME), Fault::Signer)?;
    need(x.count < Record::MOST, Fault::Full)?;
    need(x.total + Entry::SIZE <= room, Fault::Room)
}

// An edit that may be made: the value, the two header words that change, and one entry.
fn write_edit(buf: &mut [u8], c: Correction, x: Record, kind: SpotKind, value: u32)
    requires { Editable buf.old (summary_of x) (asked c) (view_spot_kind kind) value }
    ensures { buf.new ≡ edit_written plane_frames version_two buf.old (asked c) }
{
    let start = Record::HEADER;
    let end = start + x.length;
    let number = numbered(kind);
    put_value(&mut buf[start..end], number, c.word, c.value);
    let count = (x.count + 1) as u16;
    let total = (x.total + Entry::SIZE) as u16;
    put_words(buf, 2 * Record::COUNT_WORD, &[count, total]);
    let stamp = Stamp {
        time: c.time,
        desk: Entry::DESK,
    };
    let entry = Entry {
        word: c.word as u16,
        kind: number,
        old: value,
        new: c.value,
        operator: c.operator as u16,
        reason: c.reason as u16,
        stamp: Some(stamp),
    };
    put_entry(buf, x.total, entry);
}

// An edit of an accepted record at an item of the kind with the value.
fn edit_value(
    buf: &mut [u8],
    c: Correction,
    x: Record,
    kind: SpotKind,
    value: u32,
) -> Result<(), Refusal>
    requires { Known version_two buf.old (summary_of x) × Holds buf.old c.word (view_spot_kind kind) value × (x.total < 65536) }
    ensures { Edited buf.old (asked c) (view_done result) buf.new }
{
    edit_tests(c, x, kind, value, buf.len())?;
    write_edit(buf, c, x, kind, value);
    Ok(())
}

// An edit of an accepted record, where judging has told what stands at the word asked for, so that an item begins there: the item answer is taken
// apart, and anything but a Sample or Bin leaves at once with 22.
fn edit_item(buf: &mut [u8], c: Correction, x: Record, spot: Option<Spot>) -> Result<(), Refusal>
    requires { Known version_two buf.old (summary_of x) × (view_spot spot ≡ plane_frames.spot (frame_in buf.old) c.word) }
    ensures { Edited buf.old (asked c) (view_done result) buf.new }
{
    let Some(_spot) = spot else {
        return Err(Fault::Target.into());
    };
    let start = Record::HEADER;
    let end = start + x.length;
    let Some(FoundItem { item, .. }) = item_at(&buf[start..end], c.word) else {
        return Err(Fault::Target.into());
    };
    match item {
        Item::Sample(s) => edit_value(buf, c, x, SpotKind::Sample, s.value as u32),
        Item::Bin(s) => edit_value(buf, c, x, SpotKind::Bin, s.count),
        _ => Err(Fault::Target.into()),
    }
}

// Edits a record of version 2; one of version 1 is refused by 20 before its frame is judged. Refuses as judging the record does, then by 22 where no
// Sample or Bin begins at the word, by 23 for a value that the item may not hold or already has, by 24 for an operator, reason or time out of
// range, by 25 where 512 entries stand, and by 12 where the buffer has no room for one entry more. The time is kept as given, whatever the times of
// earlier entries. Accepted, it has written the value, the two header words that change and one entry, and nothing else; refused, the buffer is as
// found.
pub fn edit(buf: &mut [u8], c: Correction) -> Result<(), Refusal>
    ensures { Edited buf.old (asked c) (view_done result) buf.new }
{
    if word(buf, Record::VERSION_WORD) != Record::VERSION {
        return Err(Fault::Header.into());
    }
    let judged = judge(buf, c.word)?;
    edit_item(buf, c, judged.record, judged.spot)
}
