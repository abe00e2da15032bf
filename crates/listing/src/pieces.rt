// The lines of a listing as they are written, and the pieces of a line: texts, decimals and hex digits, each put behind the one before it.
ghost use Rattle.std.specs.Prelude.{◌≡◌, ◌++◌, ◌+◌, ◌≤◌, ◌<◌, length};
ghost use Rattle.listing.specs.Text as texts;
ghost use Rattle.listing.specs.Text.{decimal, hex_digit};
ghost use Rattle.listing.specs.Writes.{Put};

use crate::MOST;
use book::words::copy;
use itoa::Buffer;

// Room for any listing, and the byte behind what is written.
#[derive(Drop)]
pub(crate) struct Lines {
    pub bytes: [u8; MOST],
    pub at: usize,
}

impl Lines {
    // Puts a text.
    pub(crate) fn text(&mut self, s: &[u8])
        requires { self.old.at + length s.now ≤ 92520 }
        ensures { Put (length s.now) self.old.bytes self.old.at s.now self.new.bytes self.new.at }
    {
        let at = self.at;
        let bytes = &mut self.bytes;
        copy(s, &mut bytes[at..]);
        self.at = at + s.len();
    }

    // Puts a number in decimals: a u64 has at most 20 digits.
    fn number(&mut self, n: u64)
        requires { self.old.at + 20 ≤ 92520 }
        ensures { Put 20 self.old.bytes self.old.at (decimal n) self.new.bytes self.new.at }
    {
        let mut digits = Buffer::new();
        self.text(digits.format(n).as_bytes());
    }

    // Puts a text and a number.
    pub(crate) fn field(&mut self, s: &[u8], n: u64)
        requires { self.old.at + length s.now + 20 ≤ 92520 }
        ensures { Put (length s.now + 20) self.old.bytes self.old.at (s.now ++ decimal n) self.new.bytes self.new.at }
    {
        self.text(s);
        self.number(n);
    }

    // Puts a word as four hex digits.
    pub(crate) fn hex(&mut self, w: u16)
        requires { self.old.at + 4 ≤ 92520 }
        ensures { Put 4 self.old.bytes self.old.at (texts.hex w) self.new.bytes self.new.at }
    {
        let a = hex_digit(w / 4096);
        let b = hex_digit(w / 256 % 16);
        let c = hex_digit(w / 16 % 16);
        let d = hex_digit(w % 16);
        self.text(&[a, b, c, d]);
    }
}

// A hex digit, capital: std's `char::from_digit` answers a small letter, and an option.
fn hex_digit(d: u16) -> u8
    requires { d < 16 }
    ensures { result ≡ hex_digit d }
{
    if d < 10 { 48 + d as u8 } else { 55 + d as u8 }
}
