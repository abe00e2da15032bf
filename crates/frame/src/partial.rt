// The verdict on a partial frame: size word 0, no end word, in the first bytes of a buffer.
ghost use Rattle.std.specs.Prelude.{◌≡◌, ◌&&◌, ◌%◌, leb, eqb};
ghost use Rattle.format.specs.Writing.{partial_fault};
ghost use Rattle.frame.specs.Views.{number_or_zero};
ghost use Rattle.frame.specs.Promises.{PartialRead};

use crate::begun::PartialFrame;
use crate::head::{LAST_SEQUENCE, is_start, kind_of};
use crate::walk::walk;
use book::items::LAST_CARD;
use book::refusal::{Fault, Refusal};
use book::words::word;

// The fewest and the most bytes of a partial frame.
pub const FEWEST: usize = 6;

pub const FULL: usize = 8190;

// The length is even, that of a partial frame, and at most the buffer's.
fn measured(room: usize, n: usize) -> bool
    ensures { result ≡ eqb (n % 2) 0 && leb 6 n && leb n 8190 && leb n room }
{
    n % 2 == 0 && FEWEST <= n && n <= FULL && n <= room
}

// Err with the first of rules 1 to 4 that is broken.
fn partial_fault(buf: &[u8], n: usize) -> Result<(), Fault>
    ensures { number_or_zero result ≡ partial_fault buf.now n }
{
    if !measured(buf.len(), n) {
        return Err(Fault::Length);
    }
    if !is_start(word(buf, 0)) {
        return Err(Fault::Kind);
    }
    if word(buf, 1) != 0 {
        return Err(Fault::Size);
    }
    if LAST_SEQUENCE < word(buf, 2) {
        return Err(Fault::Sequence);
    }
    Ok(())
}

// Whether the first n bytes are a partial frame, and of what kind, card and sequence word; what stands behind them is not looked at. It refuses
// by 1 to 4 in order at place 0, then by the first faulty item's first of 6 to 10 at its word.
pub fn partial(buf: &[u8], n: usize) -> Result<PartialFrame, Refusal>
    ensures { PartialRead buf.now n result }
{
    partial_fault(buf, n)?;
    let w = word(buf, 0);
    let kind = kind_of(w);
    let card = w & LAST_CARD;
    // The walk notes where item 0 stands, which nobody asks here.
    let walked = walk(buf, n / 2, kind, card, 0)?;
    Ok(PartialFrame {
        kind,
        card,
        sequence: word(buf, 2),
        state: walked.state,
    })
}
