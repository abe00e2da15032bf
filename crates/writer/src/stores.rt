// Words and texts put into a buffer as bytes, low byte first.
ghost use Rattle.std.specs.Prelude.{◌≡◌, [], ◌∷◌, ◌++◌, ◌+◌, ◌<◌, ◌≤◌, length};
ghost use Rattle.std.proofs.lemmas.List.Edits.{sets};
ghost use Rattle.format.specs.Words.{bytes, long_words};
ghost use Rattle.writer.specs.Views.{time_cut, piece_bytes, final_zero, text_bytes};

use book::words::copy;

// A word. Records' stores are twins of these but for the test of the room: a public function has no `requires`, so theirs asks for the room each
// time; these go by the one test of `has_room`.
pub(crate) fn put_word(buf: &mut [u8], at: usize, w: u16)
    requires { at + 1 < length buf.old }
    ensures { buf.new ≡ sets buf.old at (bytes (w ∷ [])) }
{
    let [low, high] = w.to_le_bytes();
    buf[at] = low;
    buf[at + 1] = high;
}

// A word, and a number of 32 bits, low word first: word by word, as the document lays them out. By the bytes of `to_le_bytes` it is no plainer: four
// stores in place of two.
#[tactic(auto, unfolding(format::specs::Words::bytes))]
fn put_three(buf: &mut [u8], at: usize, w: u16, n: u32)
    requires { at + 5 < length buf.old }
    ensures { buf.new ≡ sets buf.old at (bytes (w ∷ long_words n)) }
{
    let low = at + 2;
    let high = low + 2;
    put_word(buf, at, w);
    put_word(buf, low, (n % 65536) as u16);
    put_word(buf, high, (n / 65536) as u16);
}

// A word, a number cut to its 48 bits, and one of 32, low words first.
fn put_six(buf: &mut [u8], at: usize, w: u16, time: u64, n: u32)
    requires { at + 11 < length buf.old }
    ensures { buf.new ≡ sets buf.old at (bytes (w ∷ (time_cut time ++ long_words n))) }
{
    let low = (time % 4294967296) as u32;
    let high = (time / 4294967296 % 65536) as u16;
    let next = at + 6;
    put_three(buf, at, w, low);
    put_three(buf, next, high, n);
}

// What an item is written as: a word, a word and a number of 32 bits, or a word and numbers of 48 and 32 bits; a text is put by its letters.
#[derive(Clone, Copy)]
pub(crate) enum Piece {
    Word(u16),
    Long(u16, u32),
    Event(u16, u64, u32),
    Nothing,
}

pub(crate) fn piece_size(piece: Piece) -> usize
    ensures { (result ≡ length (piece_bytes piece)) × (result ≤ 12) }
{
    match piece {
        Piece::Word(_) => 2,
        Piece::Long(_, _) => 6,
        Piece::Event(_, _, _) => 12,
        Piece::Nothing => 0,
    }
}

#[tactic(auto, unfolding(format::specs::Words::bytes))]
pub(crate) fn put_piece(buf: &mut [u8], at: usize, piece: Piece)
    requires { at + length (piece_bytes piece) ≤ length buf.old }
    ensures { buf.new ≡ sets buf.old at (piece_bytes piece) }
{
    match piece {
        Piece::Word(w) => put_word(buf, at, w),
        Piece::Long(w, n) => put_three(buf, at, w, n),
        Piece::Event(w, time, n) => put_six(buf, at, w, time, n),
        Piece::Nothing => {}
    }
}

// The final zero of a text of n bytes, and a padding byte where one is due.
#[tactic(auto, unfolding(format::specs::Words::bytes))]
fn put_zero(buf: &mut [u8], at: usize, n: usize)
    requires { at + length (final_zero n) ≤ length buf.old }
    ensures { buf.new ≡ sets buf.old at (final_zero n) }
{
    if n % 2 == 0 {
        put_word(buf, at, 0);
        return;
    }
    buf[at] = 0;
}

// Some bytes, by book's `copy`: `copy_from_slice` takes more on short ones.
fn put_bytes(buf: &mut [u8], at: usize, from: &[u8])
    requires { at + length from.now ≤ length buf.old }
    ensures { buf.new ≡ sets buf.old at from.now }
{
    let to = at + from.len();
    copy(from, &mut buf[at..to]);
}

// A word, and a text's bytes with its final zero.
pub(crate) fn put_letters(buf: &mut [u8], at: usize, w: u16, letters: &[u8])
    requires { at + length (text_bytes w letters.now) ≤ length buf.old }
    ensures { buf.new ≡ sets buf.old at (text_bytes w letters.now) }
{
    let n = letters.len();
    let from = at + 2;
    let to = from + n;
    put_word(buf, at, w);
    put_bytes(buf, from, letters);
    put_zero(buf, to, n);
}
