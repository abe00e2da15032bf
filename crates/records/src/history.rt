// The history of a record: its entries, tested and undone from the newest back on a copy of the frame.
ghost use Rattle.std.specs.Prelude.{◌≡◌, ◌&&◌, ℕ, ◌+◌, ◌-◌, ◌*◌, ◌≤◌, length, get_or, take, IsOk, MatchResult};
ghost use Rattle.ledger.specs.Frames.{Accepted};
ghost use Rattle.ledger.specs.Records.{entries_to, fits, history_verdict};
ghost use Rattle.ledger.specs.Calls.{undone};
ghost use Rattle.ledger.specs.Versions.{format_for, format_in};
ghost use Rattle.ledger.specs.PlaneFrames.{plane_frames};
ghost use Rattle.format.specs.Spots as spots;
ghost use Rattle.book.specs.Views.{refusal};
ghost use Rattle.records.specs.Views.{view_spot, view_spot_kind, view_stamp, as_entry, summary_of, unfit, framed_answer};
ghost use Rattle.records.specs.Sound.{sound_at, left_by};
ghost use Rattle.records.specs.Undoing.{Heads, Undoing, Framed, Room, Walked, HistoryIn};
ghost use Rattle.records.specs.Promises.{SignedBy};

use crate::answers::{Entry, Record, Spot, SpotKind, Stamp};
use crate::entries::{entry_in, entry_size};
use crate::header::header_right;
use crate::scan::{NONE, header_at, item_noted, note_heads, spot_of};
use crate::values::{legal, put_in};
use book::items::Item;
use book::refusal::{Fault, Refusal};
use book::words::{copy, word};
use cursor::item_at;
use frame::reading::read;

// The word noted for a word.
fn head_at(map: &[u16], w: usize) -> u16
    ensures { result ≡ get_or map.now w 0 }
{
    map.get(w).copied().unwrap_or(NONE)
}

// Operator 1 to 65,535, reason 1 to 5.
pub fn signed(operator: u32, reason: u32) -> bool
    ensures { SignedBy operator reason result }
{
    (1 <= operator)
        & (operator <= Entry::LAST_OPERATOR)
        & (1 <= reason)
        & (reason <= Entry::LAST_REASON)
}

// Whether an entry of a record of that version keeps after its reason what that version keeps: nothing, or a time of 6 bytes at desk 0.
fn stamp_fits(stamp: Option<Stamp>, version: u16) -> bool
    ensures { (s : spots.Spot) → result ≡ (((format_for version).good (view_stamp stamp)) && ((format_for version).suits (view_stamp stamp) s)) }
{
    match stamp {
        None => version == Record::FIRST_VERSION,
        Some(x) => {
            (version != Record::FIRST_VERSION)
                & (x.time <= Entry::LAST_TIME)
                & (x.desk == Entry::DESK)
        }
    }
}

// Whether an entry is sound by itself, whatever item it points to: it changes a value, it is signed, and it keeps what its version keeps. Each test
// leaves at once, so that none of what it asked is carried along.
fn is_sound(e: Entry, version: u16) -> bool
    ensures { (s : spots.Spot) → result ≡ sound_at (format_for version) (as_entry e) s }
{
    if e.old == e.new {
        return false;
    }
    if !signed(e.operator as u32, e.reason as u32) {
        return false;
    }
    stamp_fits(e.stamp, version)
}

// Whether the item of the kind with the value is the one that a sound entry left, and may have held the old value.
fn fits_item(e: Entry, kind: SpotKind, value: u32) -> bool
    ensures { result ≡ left_by (as_entry e) (view_spot_kind kind) value }
{
    if kind as u16 != e.kind {
        return false;
    }
    if value != e.new {
        return false;
    }
    legal(e.kind, e.old)
}

// Whether an entry fits a frame whose headers are noted in the map: the item answer at its word is taken apart, and anything but a Sample or
// Bin leaves at once.
fn entry_fits(f: &[u8], map: &[u16], e: Entry, version: u16) -> bool
    requires { Undoing map.now f.now }
    ensures { result ≡ fits plane_frames (format_for version) f.now (as_entry e) }
{
    if !is_sound(e, version) {
        return false;
    }
    let at = e.word as usize;
    if head_at(map, at) == NONE {
        return false;
    }
    let Some(found) = item_noted(f, at) else {
        return false;
    };
    match found.item {
        Item::Sample(x) => fits_item(e, SpotKind::Sample, x.value as u32),
        Item::Bin(x) => fits_item(e, SpotKind::Bin, x.count),
        _ => false,
    }
}

// What stands at word w of a frame whose headers are noted in the map: the item answer there is taken apart, under its header. It is asked for one
// word, so that `item_at` will do; `item_noted` stays with the loop over the entries alone, since with a second caller that loop is dearer.
pub(crate) fn spot_noted(f: &[u8], map: &[u16], w: usize) -> Option<Spot>
    requires { Undoing map.now f.now }
    ensures { view_spot result ≡ plane_frames.spot f.now w }
{
    let head = head_at(map, w);
    if head == NONE {
        return None;
    }
    let header = header_at(f, head);
    let found = item_at(f, w)?;
    spot_of(found.item, header)
}

// The history of a record whose header and frame are right: the buffer that begins with the record, the frame in it, the version, which says how long
// an entry is, and the lengths and the count that the header gives.
#[derive(Clone, Copy)]
pub(crate) struct History<'a> {
    pub buf: &'a [u8],
    pub frame: &'a [u8],
    pub version: u16,
    pub lengths: Record,
    ghost framed: { Framed (format_for version) frame.now buf.now lengths.count },
}

impl History<'_> {
    // The header and the frame of a record: refused, or its history, with no entry tested. Both versions are judged here: the version word says how long
    // an entry is.
    pub(crate) fn of(buf: &[u8]) -> Result<History<'_>, Refusal>
        ensures { MatchResult result (λ h. HistoryIn buf.entry.now (summary_of h.lengths) h.buf.now h.frame.now h.version) (λ r. refusal r ≡ framed_answer (format_in buf.entry.now) buf.entry.now) }
    {
        if !header_right(buf) {
            return Err(Fault::Header.into());
        }
        let length = word(buf, Record::LENGTH_WORD) as usize;
        let count = word(buf, Record::COUNT_WORD) as usize;
        let total = word(buf, Record::TOTAL_WORD) as usize;
        let version = word(buf, Record::VERSION_WORD);
        let start = Record::HEADER;
        let end = start + length;
        let frame = &buf[start..end];
        read(frame)?;
        let lengths = Record {
            length,
            count,
            total,
        };
        Ok(History {
            buf,
            frame,
            version,
            lengths,
        })
    }

    // The entries from number n down to number k + 1, undone in f; refused by 21 with the number of the newest that does not fit.
    fn walk_back(self, f: &mut [u8], map: &[u16], n: usize, k: usize) -> Result<(), Refusal>
        requires { Undoing map.now f.old × (k ≤ n) × (n ≤ self.lengths.count) }
        ensures { Walked (format_for self.entry.version) map.now f.old self.entry.buf.now n k result f.new }
    {
        let b = self.buf;
        let version = self.version;
        let h = Record::HEADER + self.frame.len();
        let size = entry_size(version);
        for m in (k..n).rev() {
            let at = h + size * m;
            let e = entry_in(&b[at..], version);
            if !entry_fits(f, map, e, version) {
                return Err(Fault::Entry.at(m + 1));
            }
            put_in(f, e.kind, e.word as usize, e.old);
        }
        Ok(())
    }

    // The same of all entries over a copy of the frame, made in f, with its headers noted in a map of zeros. A copy and not the frame itself: the frame is
    // lent to be read only and a refused call changes nothing, but each entry is judged on the frame as it stood before the newer ones were made.
    pub(crate) fn unwind(self, f: &mut [u8], map: &mut [u16]) -> Result<(), Refusal>
        requires { Room self.frame.now f.old map.old }
        ensures { (unfit result ≡ history_verdict plane_frames (format_for self.entry.version) self.entry.frame.now (entries_to (format_for self.entry.version) self.entry.buf.now self.entry.lengths.count)) × Heads self.entry.frame.now map.new }
    {
        note_heads(self.frame, map);
        copy(self.frame, f);
        self.walk_back(f, map, self.lengths.count, 0)
    }

    // The same, and the frame as it stood after the first k entries, where there are so many, kept on the way: no entry is undone twice.
    pub(crate) fn unwind_to(
        self,
        f: &mut [u8],
        map: &mut [u16],
        kept: &mut [u8],
        k: usize,
    ) -> Result<(), Refusal>
        requires { Room self.frame.now f.old map.old × (length kept.old ≡ length self.frame.now) }
        ensures { (unfit result ≡ history_verdict plane_frames (format_for self.entry.version) self.entry.frame.now (entries_to (format_for self.entry.version) self.entry.buf.now self.entry.lengths.count)) × (IsOk result → k ≤ self.entry.lengths.count → kept.new ≡ undone plane_frames self.entry.frame.now (take (self.entry.lengths.count - k) (entries_to (format_for self.entry.version) self.entry.buf.now self.entry.lengths.count))) }
    {
        note_heads(self.frame, map);
        copy(self.frame, f);
        let n = self.lengths.count;
        let stop = n.min(k);
        self.walk_back(f, map, n, stop)?;
        copy(f, kept);
        self.walk_back(f, map, stop, 0)
    }
}
