// The lines of a listing, each put behind the one before it.
ghost use Rattle.std.specs.Prelude.{◌≡◌, ◌++◌, ◌+◌, ◌*◌, ◌≤◌, length};
ghost use Rattle.format.specs.Words.{word_at};
ghost use Rattle.ledger.specs.Formats.{size};
ghost use Rattle.ledger.specs.Records.{length_in, entry_of};
ghost use Rattle.ledger.specs.Versions.{format_for};
ghost use Rattle.book.specs.Refusals.{number_of};
ghost use Rattle.rules.specs.Views.{view_kind};
ghost use Rattle.records.specs.Views.{view_stamp};
ghost use Rattle.listing.specs.Ascii.{ascii};
ghost use Rattle.listing.specs.Text.{decimal};
ghost use Rattle.listing.specs.Listing.{letter, kind_text, change_text, time_text, signer_text, frame_line, entry_line, end_line, refused_line, entry_lines};
ghost use Rattle.listing.specs.Writes.{Put};

use crate::pieces::Lines;
use book::refusal::Refusal;
use frame::reading::Frame;
use records::answers::{Entry, SpotKind, Stamp};
use records::entries::{entry_of, entry_size};
use rules::state::Kind;

impl Lines {
    // The start of a frame's line, with its kind's letter.
    fn kind_start(&mut self, kind: Kind)
        requires { self.old.at + 7 ≤ 92520 }
        ensures { Put 7 self.old.bytes self.old.at (ascii "frame " ++ letter (view_kind kind)) self.new.bytes self.new.at }
    {
        match kind {
            Kind::Data => self.text(b"frame D"),
            Kind::Monitor => self.text(b"frame M"),
            Kind::Command => self.text(b"frame C"),
        }
    }

    // The line of a frame of so many bytes.
    pub(crate) fn frame_line(&mut self, frame: Frame, size: usize)
        requires { self.old.at + 180 ≤ 92520 }
        ensures { Put 180 self.old.bytes self.old.at (frame_line (view_kind frame.kind) frame.card frame.sequence size frame.items) self.new.bytes self.new.at }
    {
        self.kind_start(frame.kind);
        self.field(b" card ", frame.card as u64);
        self.text(b" seq ");
        self.hex(frame.sequence);
        self.field(b" bytes ", size as u64);
        self.field(b" items ", frame.items as u64);
        self.text(b"\n");
    }

    // The kind of an entry's item, and the old value.
    fn old_value(&mut self, kind: u16, old: u32)
        requires { self.old.at + 28 ≤ 92520 }
        ensures { Put 28 self.old.bytes self.old.at (kind_text kind ++ decimal old) self.new.bytes self.new.at }
    {
        if kind == SpotKind::Sample as u16 {
            return self.field(b" sample ", old as u64);
        }
        self.field(b" bin ", old as u64);
    }

    // What entry number j changed.
    fn change(&mut self, j: usize, x: Entry)
        requires { self.old.at + 103 ≤ 92520 }
        ensures { Put 103 self.old.bytes self.old.at (change_text j x.word x.kind x.old x.new) self.new.bytes self.new.at }
    {
        self.field(b"edit ", j as u64);
        self.field(b" word ", x.word as u64);
        self.old_value(x.kind, x.old);
        self.field(b" -> ", x.new as u64);
    }

    // When it was changed, where the entry keeps that; the desk is 0 and is not listed.
    fn stamp_time(&mut self, stamp: Option<Stamp>)
        requires { self.old.at + 24 ≤ 92520 }
        ensures { Put 24 self.old.bytes self.old.at (time_text (view_stamp stamp)) self.new.bytes self.new.at }
    {
        if let Some(x) = stamp {
            self.field(b" at ", x.time);
        }
    }

    // Who changed it, why and when, and the end of the line.
    fn signer(&mut self, x: Entry)
        requires { self.old.at + 77 ≤ 92520 }
        ensures { Put 77 self.old.bytes self.old.at (signer_text x.operator x.reason (view_stamp x.stamp)) self.new.bytes self.new.at }
    {
        self.field(b" by ", x.operator as u64);
        self.field(b" reason ", x.reason as u64);
        self.stamp_time(x.stamp);
        self.text(b"\n");
    }

    // The line of entry number j of a record of that version, whose bytes e begins with.
    fn entry_line(&mut self, j: usize, e: &[u8], version: u16)
        requires { self.old.at + 180 ≤ 92520 }
        ensures { Put 180 self.old.bytes self.old.at (entry_line j (entry_of (format_for version) e.now)) self.new.bytes self.new.at }
    {
        let x = entry_of(e, version);
        self.change(j, x);
        self.signer(x);
    }

    // The lines of a record's entries, from the oldest; the history begins at byte `history` of the buffer, and each entry where the older one ends.
    pub(crate) fn entry_lines(&mut self, buf: &[u8], version: u16, history: usize, count: usize)
        requires { (version ≡ word_at buf.now 0) × (history ≡ 16 + length_in buf.now) × (history + size (format_for version) * count ≤ length buf.now) × (self.old.at + 180 * count ≤ 92520) }
        ensures { Put (180 * count) self.old.bytes self.old.at (entry_lines buf.now count) self.new.bytes self.new.at }
    {
        let size = entry_size(version);
        // By the byte, since an entry is read of all that is left; `chunks_exact` would only want the entries cut out before.
        let mut from = history;
        for j in 0..count {
            self.entry_line(j + 1, &buf[from..], version);
            from += size;
        }
    }

    // The last line.
    pub(crate) fn end_line(&mut self, count: usize)
        requires { self.old.at + 180 ≤ 92520 }
        ensures { Put 180 self.old.bytes self.old.at (end_line count) self.new.bytes self.new.at }
    {
        self.field(b"end ", count as u64);
        self.text(b"\n");
    }

    // A refusal's line.
    pub(crate) fn refused_line(&mut self, r: Refusal)
        requires { self.old.at + 180 ≤ 92520 }
        ensures { Put 180 self.old.bytes self.old.at (refused_line (number_of r.fault) r.place) self.new.bytes self.new.at }
    {
        self.field(b"refused ", r.fault.number() as u64);
        self.field(b" at ", r.place as u64);
        self.text(b"\n");
    }
}
