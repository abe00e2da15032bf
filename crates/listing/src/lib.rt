// What the program `list` prints of a record, as bytes in lent memory.
#![tactic(auto)]

ghost use Rattle.std.specs.Prelude.{◌≡◌, ◌≤◌, length};
ghost use Rattle.listing.specs.Listing as listings;
ghost use Rattle.listing.specs.Writes.{Put, Known};
ghost use Rattle.listing.specs.Promises.{Listed};
ghost use Rattle.listing.specs.Views.{view_listing};

mod pieces;
mod rows;

use book::refusal::{Fault, Refusal};
use book::words::{copy, word};
use frame::reading::read;
use pieces::Lines;
use records::answers::Record;
use records::record;

// The most bytes of a line: at most 40 of text and seven numbers of 20 digits.
pub const LINE: usize = 180;

// The most bytes of a listing: the frame's line, one line an entry, the last line. Lent so many, `listing` never refuses (proofs/Room.antt).
pub const MOST: usize = (Record::MOST + 2) * LINE;

impl Lines {
    // The lines of an accepted record of that frame length and entry count.
    fn record_lines(&mut self, buf: &[u8], size: usize, count: usize)
        requires { Known buf.now size count × (self.old.at ≡ 0) }
        ensures { Put 92520 self.old.bytes self.old.at (listings.listing buf.now) self.new.bytes self.new.at }
    {
        let end = Record::HEADER + size;
        // An accepted record's frame is accepted.
        let frame = read(&buf[Record::HEADER..end]).unwrap();
        self.frame_line(frame, size);
        let version = word(buf, Record::VERSION_WORD);
        self.entry_lines(buf, version, end, count);
        self.end_line(count);
    }

    // All lines of a buffer.
    fn all_lines(&mut self, buf: &[u8])
        requires { self.old.at ≡ 0 }
        ensures { Put 92520 self.old.bytes self.old.at (listings.listing buf.now) self.new.bytes self.new.at }
    {
        match record(buf) {
            Ok(x) => self.record_lines(buf, x.length, x.count),
            Err(r) => self.refused_line(r),
        }
    }

    // The listing by way of these lines: nothing is written where it does not fit. Its length is known only when it is made, and to make it twice
    // would cost more than the copy.
    fn listing(&mut self, buf: &[u8], out: &mut [u8]) -> Result<usize, Refusal>
        requires { self.old.at ≡ 0 }
        ensures { Listed buf.now out.old (view_listing result) out.new }
    {
        self.all_lines(buf);
        let n = self.at;
        if out.len() < n {
            return Err(Fault::Room.into());
        }
        copy(&self.bytes[..n], out);
        Ok(n)
    }
}

// Writes the listing of a buffer to the start of another, and answers its length; nothing beyond is written. A record that is refused is
// listed as its refusal. Refuses by 12 where the second buffer is shorter than the listing, and then it is as found; `MOST` bytes hold any.
pub fn listing(buf: &[u8], out: &mut [u8]) -> Result<usize, Refusal>
    ensures { Listed buf.now out.old (view_listing result) out.new }
{
    let mut lines = Lines {
        bytes: [0; MOST],
        at: 0,
    };
    lines.listing(buf, out)
}
