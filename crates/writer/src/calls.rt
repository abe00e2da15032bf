// The writer's calls on a partial frame in a lent buffer. All tests come first, in functions that can only read: a refusal has nothing to undo.
ghost use Rattle.std.specs.Prelude.{◌≡◌, ◌%◌};
ghost use Rattle.format.specs.Frames.{start_word};
ghost use Rattle.format.specs.Writing.{begin_answer, close_answer};
ghost use Rattle.rules.specs.Views.{view_kind};
ghost use Rattle.writer.specs.Views.{view_written};
ghost use Rattle.writer.specs.Promises.{Begun, Added, AddedText, Closed};

use crate::steps::{put, put_text};
use crate::stores::put_word;
use book::items::{Item, LAST_CARD};
use book::refusal::{Fault, Refusal};
use frame::head::{END, LAST_SEQUENCE, LEAST};
use frame::partial::{FEWEST, partial};
use rules::state::{Kind, may_end};

// The start word of a frame of version 0, its card cut to its width.
fn start_word(kind: Kind, card: u16) -> u16
    ensures { result ≡ start_word (view_kind kind) (card % 32) }
{
    match kind {
        Kind::Data => card & LAST_CARD | 0x0800,
        Kind::Monitor => card & LAST_CARD | 0x0600,
        Kind::Command => card & LAST_CARD | 0x0400,
    }
}

fn may_begin(buf: &[u8], card: u16, sequence: u16) -> Result<usize, Refusal>
    ensures { view_written result ≡ begin_answer buf.now card sequence }
{
    if LAST_CARD < card {
        return Err(Fault::Value.into());
    }
    if LAST_SEQUENCE < sequence {
        return Err(Fault::Sequence.into());
    }
    if buf.len() < LEAST {
        return Err(Fault::Room.into());
    }
    Ok(FEWEST)
}

// Begins a partial frame: writes bytes 0 to 5 and answers the length 6. It refuses a card over 31 by 9, a sequence word over 0x0100 by 4, a
// buffer under 8 bytes by 12, in that order, each at place 0.
pub fn begin(buf: &mut [u8], kind: Kind, card: u16, sequence: u16) -> Result<usize, Refusal>
    ensures { Begun buf.old kind card sequence result buf.new }
{
    let n = may_begin(buf, card, sequence)?;
    put_word(buf, 0, start_word(kind, card));
    put_word(buf, 2, 0);
    put_word(buf, 4, sequence);
    Ok(n)
}

// Adds an item to the partial frame in the first `length` bytes: writes its bytes behind them and answers the new length. It refuses by what is
// wrong with the partial frame (1 to 4, then 6 to 10); then by 8, 9 or 10 for the item, at word `length`/2, a content too wide for its field being
// 9; then by 12 at place 0 where the item and an end word would pass the buffer or 8,192 bytes. A text is added by `add_text`; here it is 8 or 9.
pub fn add(buf: &mut [u8], length: usize, item: Item) -> Result<usize, Refusal>
    ensures { Added buf.old length item result buf.new }
{
    let frame = partial(buf, length)?;
    let reached = put(buf, length, frame.card, frame.state, item)?;
    Ok(reached.length)
}

// Adds a text, which comes without its final zero. As `add`; a text over 254 bytes or holding a zero is 9.
pub fn add_text(buf: &mut [u8], length: usize, text: &[u8]) -> Result<usize, Refusal>
    ensures { AddedText buf.old length text.now result buf.new }
{
    let frame = partial(buf, length)?;
    let reached = put_text(buf, length, frame.state, text)?;
    Ok(reached.length)
}

fn may_close(buf: &[u8], length: usize) -> Result<usize, Refusal>
    ensures { view_written result ≡ close_answer buf.now length }
{
    let frame = partial(buf, length)?;
    if !may_end(frame.state.mode) {
        return Err(Fault::Open.at(length / 2));
    }
    if buf.len() < length + 2 {
        return Err(Fault::Room.into());
    }
    Ok(length + 2)
}

// Closes the partial frame in the first `length` bytes: writes the size and end words and answers the frame's length. It refuses by what is
// wrong with the partial frame, then after Channel or Time bin by 11 at the word where the end word would stand, then by 12 at place 0 where the
// end word doesn't fit. An event may be open.
pub fn close(buf: &mut [u8], length: usize) -> Result<usize, Refusal>
    ensures { Closed buf.old length result buf.new }
{
    let n = may_close(buf, length)?;
    put_word(buf, 2, n as u16);
    put_word(buf, length, END);
    Ok(n)
}
