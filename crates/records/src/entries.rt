// An entry of the history, read from its bytes and stored in them: the one place that knows how an entry is laid out.
ghost use Rattle.std.specs.Prelude.{◌≡◌, [], ◌∷◌, ◌+◌, ◌*◌, ◌≤◌, ◌<◌, length, drop};
ghost use Rattle.std.proofs.lemmas.List.Edits.{sets};
ghost use Rattle.format.specs.Words.{bytes};
ghost use Rattle.ledger.specs.Formats.{size};
ghost use Rattle.ledger.specs.Records.{entry_of};
ghost use Rattle.ledger.specs.VersionTwo.{stamp_words};
ghost use Rattle.ledger.specs.Versions.{format_for};
ghost use Rattle.records.specs.Views.{view_stamp, as_entry};
ghost use Rattle.records.specs.Promises.{EntrySized, EntryRead, EntryPut};

use crate::answers::{Entry, Record, Stamp};
use crate::scan::{long_in, word_in};
use crate::values::{put_long, put_word};
use book::words::copy;

// The bytes of an entry in a record of that version.
pub fn entry_size(version: u16) -> usize
    ensures { EntrySized version result }
{
    if version == Record::FIRST_VERSION {
        return Entry::FIRST_SIZE;
    }
    Entry::SIZE
}

// A time from its low 32 bits and its high 16.
fn joined(low: u32, high: u16) -> u64
    ensures { result ≡ low + 4294967296 * high }
{
    low as u64 + 4294967296 * high as u64
}

// What the entry that a slice begins with, and has whole, keeps after the reason.
fn stamp_in(s: &[u8], version: u16) -> Option<Stamp>
    requires { size (format_for version) ≤ length s.now }
    ensures { view_stamp result ≡ (format_for version).read (drop 16 s.now) }
{
    if version == Record::FIRST_VERSION {
        return None;
    }
    let low = long_in(s, Entry::TIME_WORD);
    let high = word_in(s, Entry::TIME_WORD + 2);
    let desk = word_in(s, Entry::DESK_WORD);
    Some(Stamp {
        time: joined(low, high),
        desk,
    })
}

// The entry that a slice begins with and has whole, in a record of that version.
pub(crate) fn entry_in(s: &[u8], version: u16) -> Entry
    requires { size (format_for version) ≤ length s.now }
    ensures { as_entry result ≡ entry_of (format_for version) s.now }
{
    let stamp = stamp_in(s, version);
    Entry {
        word: word_in(s, Entry::INDEX_WORD),
        kind: word_in(s, Entry::KIND_WORD),
        old: long_in(s, Entry::OLD_WORD),
        new: long_in(s, Entry::NEW_WORD),
        operator: word_in(s, Entry::OPERATOR_WORD),
        reason: word_in(s, Entry::REASON_WORD),
        stamp,
    }
}

// The entry that a slice begins with, in a record of that version; what is past its end is 0.
pub fn entry_of(s: &[u8], version: u16) -> Entry
    ensures { EntryRead s.now version result }
{
    let mut whole = [0u8; Entry::SIZE];
    copy(s, &mut whole);
    entry_in(&whole, version)
}

// Stores a time in 6 bytes and a desk behind it, as far as there is room.
fn put_time(buf: &mut [u8], at: usize, time: u64, desk: u16)
    requires { at < length buf.old + 24 }
    ensures { buf.new ≡ sets buf.old at (bytes (stamp_words (time ∷ desk ∷ []))) }
{
    put_long(buf, at, (time % 4294967296) as u32);
    put_word(buf, at + 4, (time / 4294967296 % 65536) as u16);
    put_word(buf, at + 6, desk);
}

// Stores what an entry keeps after the reason; zeros where it keeps nothing.
fn put_stamp(buf: &mut [u8], at: usize, stamp: Option<Stamp>)
    requires { at < length buf.old + 24 }
    ensures { buf.new ≡ sets buf.old at (bytes (stamp_words (view_stamp stamp))) }
{
    match stamp {
        None => put_time(buf, at, 0, 0),
        Some(x) => put_time(buf, at, x.time, x.desk),
    }
}

// Stores an entry of version 2 at byte `at`, as far as there is room: no other is written.
pub fn put_entry(buf: &mut [u8], at: usize, e: Entry)
    ensures { EntryPut buf.old at e buf.new }
{
    if buf.len() <= at {
        return;
    }
    put_word(buf, at + 2 * Entry::INDEX_WORD, e.word);
    put_word(buf, at + 2 * Entry::KIND_WORD, e.kind);
    put_long(buf, at + 2 * Entry::OLD_WORD, e.old);
    put_long(buf, at + 2 * Entry::NEW_WORD, e.new);
    put_word(buf, at + 2 * Entry::OPERATOR_WORD, e.operator);
    put_word(buf, at + 2 * Entry::REASON_WORD, e.reason);
    put_stamp(buf, at + 2 * Entry::TIME_WORD, e.stamp);
}
