// One item put behind the bytes that a state stands for: by the state alone, so that code which carries the state writes a frame in one pass.
ghost use Rattle.std.specs.Prelude.{◌≡◌, ◌≤◌};
ghost use Rattle.format.specs.Items.{whole};
ghost use Rattle.format.specs.Steps.{marked, check_by};
ghost use Rattle.format.specs.Writing.{given};
ghost use Rattle.format.specs.PartialSteps.{PutWrote};
ghost use Rattle.book.specs.Fields.{continue_item, end_item};
ghost use Rattle.book.specs.Views.{view_item};
ghost use Rattle.rules.specs.Views.{view_state, view_step};
ghost use Rattle.writer.specs.Views.{view_put, room_in, answered_by, piece_bytes, item_bytes, placed, placed_left, lettered, Short};
ghost use Rattle.writer.specs.Promises.{PutDone, PutTextDone};

use crate::answers::Put;
use crate::stores::{Piece, piece_size, put_letters, put_piece};
use book::items::{ContinueEvent, EndEvent, Item, Text};
use book::refusal::{Fault, Refusal};
use cursor::texts::no_zero;
use frame::head::MOST;
use rules::state::State;
use rules::steps::{
    Moved, bin, channel, continue_event, end_event, histogram, hit_count, last_cell, sample,
    start_event, text, time_bin,
};

// An item of so many bytes and an end word fit behind `length` bytes, in the buffer and in a frame. The first test is for the sum, since `length` may
// be any number.
fn has_room(room: usize, length: usize, size: usize) -> bool
    requires { size ≤ 1000 }
    ensures { result ≡ room_in room length size }
{
    if MOST < length {
        return false;
    }
    let full = length + size + 2;
    (full <= room) & (full <= MOST)
}

// The answer to an item of so many bytes, by the turn that the rules took at it: 8, 9 or 10 at its word, then 12.
fn answered(
    room: usize,
    length: usize,
    turn: Result<Moved, Fault>,
    size: usize,
) -> Result<Put, Refusal>
    requires { size ≤ 1000 }
    ensures { view_put result ≡ answered_by room length size (view_step turn) }
{
    let moved = turn.map_err(|fault| fault.at(length / 2))?;
    if !has_room(room, length, size) {
        return Err(Fault::Room.into());
    }
    Ok(Put {
        length: length + size,
        state: moved.state,
    })
}

// An item of some words.
fn put_words(
    buf: &mut [u8],
    length: usize,
    turn: Result<Moved, Fault>,
    piece: Piece,
) -> Result<Put, Refusal>
    ensures { PutWrote (placed buf.old length (piece_bytes piece) (view_step turn)) (placed_left buf.old length (piece_bytes piece) (view_step turn)) (view_put result) buf.new }
{
    let reached = answered(buf.len(), length, turn, piece_size(piece))?;
    put_piece(buf, length, piece);
    Ok(reached)
}

// What an item is written as: a plain value, so that the buffer is lent once and not in each arm, which the check pays for (docs/PROVING.md).
fn piece_of(item: Item) -> Piece
    ensures { piece_bytes result ≡ item_bytes item }
{
    match item {
        Item::Channel(x) => Piece::Word(x.word()),
        Item::Histogram(x) => Piece::Word(x.word()),
        Item::HitCount(x) => Piece::Word(x.word()),
        Item::Sample(x) => Piece::Word(x.word()),
        Item::Bin(x) => Piece::Long(x.word(), x.count),
        Item::LastCell(x) => Piece::Word(x.word()),
        Item::TimeBin(x) => Piece::Word(x.word()),
        Item::Text(_) => Piece::Nothing,
        Item::StartEvent(x) => Piece::Event(x.word(), x.timestamp, x.number),
        Item::EndEvent(x) => Piece::Long(EndEvent::WORD, x.size),
        Item::ContinueEvent(x) => Piece::Long(ContinueEvent::WORD, x.number),
    }
}

// The rules at an End event that is handed over: its low bits are zero.
fn end_turn(at: usize, st: State, x: EndEvent) -> Result<Moved, Fault>
    ensures { view_step result ≡ marked 0 (check_by 0 at (view_state st) (whole (end_item x))) }
{
    end_event(at, st, x, 0, 0)
}

// The rules at a Continue event that is handed over: its content is zero, and no rule looks at its number.
fn continue_turn(st: State, x: ContinueEvent) -> Result<Moved, Fault>
    ensures { view_step result ≡ marked 0 (check_by 0 0 (view_state st) (whole (continue_item x))) }
{
    continue_event(st, 0, 0)
}

// The turn that the rules take at an item; a text without its bytes breaks its rule.
#[tactic(auto, unfolding(format::specs::Steps::check_by, rules::specs::Views::text_tested))]
fn turn_of(at: usize, card: u16, st: State, item: Item) -> Result<Moved, Fault>
    ensures { view_step result ≡ marked 0 (check_by card at (view_state st) (given (view_item item))) }
{
    match item {
        Item::Channel(x) => channel(card, st, x, 0),
        Item::Histogram(x) => histogram(card, st, x, 0),
        Item::HitCount(x) => hit_count(card, st, x, 0),
        Item::Sample(x) => sample(st, x, 0),
        Item::Bin(x) => bin(st, x, 0),
        Item::LastCell(x) => last_cell(st, x, 0),
        Item::TimeBin(x) => time_bin(st, x, 0),
        Item::Text(_) => text(st, false, 0),
        Item::StartEvent(x) => start_event(at, st, x, 0),
        Item::EndEvent(x) => end_turn(at, st, x),
        Item::ContinueEvent(x) => continue_turn(st, x),
    }
}

// Puts an item behind `length` bytes of a frame of the card, where `st` is the state behind them: writes its bytes and answers the new length
// and the state behind it. It refuses by 8, 9 or 10 at word `length`/2, then by 12 at place 0 where the item and an end word don't fit. A text's
// bytes are not in the item: it answers 8 or 9, and `put_text` puts it. (The rules' index of a next item is not asked for here.)
pub fn put(buf: &mut [u8], length: usize, card: u16, st: State, item: Item) -> Result<Put, Refusal>
    ensures { PutDone buf.old length card st item result buf.new }
{
    let turn = turn_of(length / 2, card, st, item);
    put_words(buf, length, turn, piece_of(item))
}

// An item of a text's letters.
fn text_words(
    buf: &mut [u8],
    length: usize,
    turn: Result<Moved, Fault>,
    letters: &[u8],
) -> Result<Put, Refusal>
    requires { Short letters.now }
    ensures { PutWrote (placed buf.old length (lettered letters.now) (view_step turn)) (placed_left buf.old length (lettered letters.now) (view_step turn)) (view_put result) buf.new }
{
    let n = letters.len();
    let size = 2 + (n + 2) / 2 * 2;
    let w = Text {
        length: (n + 1) as u16,
    }
    .word();
    let reached = answered(buf.len(), length, turn, size)?;
    put_letters(buf, length, w, letters);
    Ok(reached)
}

// Puts a text behind `length` bytes, where `st` is the state behind them; the text comes without its final zero. As `put`: it refuses by 8, by 9
// for a text over 254 bytes or holding a zero, then by 12 at place 0.
pub fn put_text(buf: &mut [u8], length: usize, st: State, letters: &[u8]) -> Result<Put, Refusal>
    ensures { PutTextDone buf.old length st letters.now result buf.new }
{
    if Text::MOST < letters.len() {
        return answered(buf.len(), length, text(st, false, 0), 0);
    }
    let turn = text(st, no_zero(letters), 0);
    text_words(buf, length, turn, letters)
}
