// Words of 16, 32 and 48 bits in a slice of bytes, low byte first. All of them are total: what is past the end is 0.
ghost use Rattle.std.specs.Prelude.{◌≡◌, ◌/◌, ◌≤◌, ◌<◌, length};
ghost use Rattle.std.proofs.lemmas.List.Edits.{sets};
ghost use Rattle.format.specs.Words.{word_at};
ghost use Rattle.book.specs.Promises.{WordRead, LongRead, TimeRead, Copied};

// The word at index i where it is not whole: the last byte alone, or nothing.
fn end_word(s: &[u8], i: usize) -> u16
    requires { length s.now / 2 ≤ i }
    ensures { result ≡ word_at s.now i }
{
    if s.len() / 2 < i {
        return 0;
    }
    if s.len() % 2 == 0 {
        return 0;
    }
    s[2 * i] as u16
}

// The word at index i.
pub fn word(s: &[u8], i: usize) -> u16
    ensures { WordRead s.now i result }
{
    if i < s.len() / 2 {
        return u16::from_le_bytes([s[2 * i], s[2 * i + 1]]);
    }
    end_word(s, i)
}

// The number of 32 bits whose low word stands at index i. `word` needs no test; the one here, as in `time`, is there because i + 1 and i + 2 must
// not pass the largest number.
pub fn long(s: &[u8], i: usize) -> u32
    ensures { LongRead s.now i result }
{
    if s.len() <= i {
        return 0;
    }
    let low = word(s, i) as u32;
    let high = word(s, i + 1) as u32;
    low + 65536 * high
}

// The number of 48 bits whose low word stands at index i.
pub fn time(s: &[u8], i: usize) -> u64
    ensures { TimeRead s.now i result }
{
    if s.len() <= i {
        return 0;
    }
    let low = long(s, i) as u64;
    let high = word(s, i + 2) as u64;
    low + 4294967296 * high
}

// Copies src to the start of dst, where there is room for all of it. By a loop and not by `copy_from_slice`, which is a call of the C library at any
// length: sixteen bytes took 25 instructions by it, and 14 here.
fn copy_all(src: &[u8], dst: &mut [u8])
    requires { length src.now ≤ length dst.old }
    ensures { dst.new ≡ sets dst.old 0 src.now }
{
    for i in 0..src.len() {
        dst[i] = src[i];
    }
}

// Copies src to the start of dst, as far as there is room.
pub fn copy(src: &[u8], dst: &mut [u8])
    ensures { Copied src.now dst.old dst.new }
{
    let room = dst.len();
    if src.len() <= room {
        copy_all(src, dst);
    } else {
        copy_all(&src[..room], dst);
    }
}
