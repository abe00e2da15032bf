// The bytes of a text: none zero but the final one and the padding.
ghost use Rattle.std.specs.Prelude.{◌≡◌, ◌+◌, ◌-◌, ◌≤◌, length, drop};
ghost use Rattle.format.specs.Words.{all_zero};
ghost use Rattle.cursor.specs.Promises.{ZeroFree, TextClosed};

use book::class::text_words;
use book::items::Text;

// No byte is zero. There is no early exit, so that the compiler takes many bytes at once.
pub fn no_zero(s: &[u8]) -> bool
    ensures { ZeroFree s.now result }
{
    let mut good = true;
    for &x in s {
        good &= x != 0;
    }
    good
}

// Byte n is zero, and so is the byte after it where there is one: the last byte is the one or the other.
fn is_ended(s: &[u8], n: usize) -> bool
    requires { (1 ≤ n) × (n ≤ length s.now) × (length s.now ≤ n + 1) }
    ensures { result ≡ all_zero (drop (n - 1) s.now) }
{
    let final_zero = s[n - 1] == 0;
    let last = s.len() - 1;
    final_zero & (s[last] == 0)
}

// The bytes are those of the text whose word is w: as many as its words hold, and "n at least 1, byte n zero, earlier bytes not zero, a padding
// byte zero". A reader lends just so many, and there the compiler leaves out both tests of the length: halves are compared, as it sees through
// those alone.
pub fn is_closed(s: &[u8], w: u16) -> bool
    ensures { TextClosed s.now w result }
{
    let more = text_words(w) as usize;
    if s.len() / 2 != more {
        return false;
    }
    if s.len() % 2 != 0 {
        return false;
    }
    let n = Text::of_word(w).length as usize;
    if n < 1 {
        return false;
    }
    let k = n - 1;
    no_zero(&s[0..k]) & is_ended(s, n)
}
