// The value of a Sample or Bin: which one it may hold, and how it is stored in the frame's bytes.
ghost use Rattle.std.specs.Prelude.{◌≡◌, true, ◌∷◌, [], ◌+◌, ◌*◌, ◌≤◌, ◌<◌, length};
ghost use Rattle.std.proofs.lemmas.List.Edits.{sets};
ghost use Rattle.format.specs.Words.{bytes, long_words};
ghost use Rattle.format.specs.Spots.{legal_value};
ghost use Rattle.records.specs.Stored.{stored, Inside};
ghost use Rattle.records.specs.Promises.{MayHold, WordPut, ValuePut};

use crate::answers::SpotKind;
use book::items::{Bin, Sample};
use book::words::copy;

// An item of the kind may hold the value: a sample of at most 4,095, a bin's count of at least 1.
pub fn legal(kind: u16, value: u32) -> bool
    ensures { MayHold kind value result }
{
    match SpotKind::try_from(kind) {
        Ok(SpotKind::Sample) => value <= Sample::LAST as u32,
        Ok(SpotKind::Bin) => Bin::LEAST_COUNT <= value,
        Err(_) => false,
    }
}

// Stores some bytes at byte `at`, as far as there is room.
fn put_bytes(buf: &mut [u8], at: usize, from: &[u8])
    ensures { buf.new ≡ sets buf.old at from.now }
{
    if at <= buf.len() {
        copy(from, &mut buf[at..]);
    }
}

// Stores a word at byte `at`, low byte first, as far as there is room.
pub fn put_word(buf: &mut [u8], at: usize, w: u16)
    ensures { WordPut buf.old at w buf.new }
{
    put_bytes(buf, at, &w.to_le_bytes());
}

// Stores a number of 32 bits at byte `at`, low word first, as far as there is room.
pub(crate) fn put_long(buf: &mut [u8], at: usize, n: u32)
    ensures { buf.new ≡ sets buf.old at (bytes (long_words n)) }
{
    put_bytes(buf, at, &n.to_le_bytes());
}

// Puts a legal value in the item of the kind at word w: a Sample's in its own word, a Bin's count in the two words after its first.
fn put_legal(f: &mut [u8], kind: u16, w: usize, value: u32)
    requires { (2 * w ≤ length f.old) × (legal_value kind value ≡ true) }
    ensures { f.new ≡ stored f.old kind w value }
{
    if kind == SpotKind::Sample as u16 {
        let x = Sample {
            value: value as u16,
        };
        put_word(f, 2 * w, x.word());
        return;
    }
    put_long(f, 2 * w + 2, value);
}

// The same where the item's words lie in the frame. Apart from `put_legal`, since it is called for each entry that is undone, where tests of the end
// cost time.
pub(crate) fn put_in(f: &mut [u8], kind: u16, w: usize, value: u32)
    requires { Inside kind w f.old × (legal_value kind value ≡ true) }
    ensures { f.new ≡ stored f.old kind w value }
{
    if kind == SpotKind::Sample as u16 {
        let x = Sample {
            value: value as u16,
        };
        f[2 * w..2 * w + 2].copy_from_slice(&x.word().to_le_bytes());
        return;
    }
    f[2 * w + 2..2 * w + 6].copy_from_slice(&value.to_le_bytes());
}

// Puts a value in the item of the kind whose first word is word w, as far as there is room; leaves the bytes where an item of that kind may not hold it.
pub fn put_value(f: &mut [u8], kind: u16, w: usize, value: u32)
    ensures { ValuePut f.old kind w value f.new }
{
    if f.len() / 2 < w {
        return;
    }
    if legal(kind, value) {
        put_legal(f, kind, w, value);
    }
}
