// The class of a word, and the questions on a frame and its items.
ghost use Rattle.std.specs.Prelude.{◌≡◌};
ghost use Rattle.format.specs.Book.{row_of};
ghost use Rattle.book.specs.Views.{view};
ghost use Rattle.exports.specs.Flat.{row};
ghost use Rattle.exports.specs.Promises.{FrameFlat, ItemFlat, FoundFlat, ClassNumbered, FrameTold, ItemTold, TextPart};

use crate::answers::{PlaneFound, PlaneFrame, PlaneItem, PlaneText};
use book::class::{Class, classify};
use book::items::Item;
use book::refusal::Refusal;
use frame::items::{IndexedItem, item};
use frame::reading::{Frame, read};

// The row of a word's class in document 01's word book, from 1 on; 0 where it has none.
pub fn plane_classify(word: u16) -> u32
    ensures { ClassNumbered word result }
{
    classify(word).row()
}

impl From<Result<Frame, Refusal>> for PlaneFrame {
    ghost from_gives = { FrameFlat };

    #[tactic(auto, unfolding(crate::specs::Flat::flat_frame))]
    fn from(reading: Result<Frame, Refusal>) -> PlaneFrame {
        match reading {
            Ok(frame) => PlaneFrame {
                kind: frame.kind as u16,
                card: frame.card,
                sequence: frame.sequence,
                items: frame.items,
                ..PlaneFrame::default()
            },
            Err(r) => PlaneFrame {
                refused: r.fault.number(),
                place: r.place,
                ..PlaneFrame::default()
            },
        }
    }
}

// Whether the bytes are a frame, and of what kind, card, sequence word and number of items: `frame::read`.
pub fn plane_read(frame: &[u8]) -> PlaneFrame
    ensures { FrameTold frame.now result }
{
    read(frame).into()
}

// An item of a chip: Channel, Histogram, Hit count and Last cell. (A struct laid out in each arm of the items takes the prover far longer.)
fn chip_item(class: Class, card: u16, chip: u16, channel: u16, hits: u16, cell: u16) -> PlaneItem
    ensures { result ≡ row (row_of (view class)) card chip channel hits 0 0 cell 0 0 0 0 0 0 0 }
{
    PlaneItem {
        item_class: class.row(),
        card,
        chip,
        channel,
        hits,
        cell,
        ..PlaneItem::default()
    }
}

// An item of values: Sample, Bin, Time bin and Text.
fn value_item(class: Class, value: u16, bin: u16, count: u32, time: u16, length: u16) -> PlaneItem
    ensures { result ≡ row (row_of (view class)) 0 0 0 0 value bin 0 time length 0 count 0 0 0 }
{
    PlaneItem {
        item_class: class.row(),
        value,
        bin,
        count,
        time,
        length,
        ..PlaneItem::default()
    }
}

// An item of an event: Start, Continue and End event.
fn event_item(class: Class, kind: u16, timestamp: u64, number: u32, size: u32) -> PlaneItem
    ensures { result ≡ row (row_of (view class)) 0 0 0 0 0 0 0 0 0 kind 0 number size timestamp }
{
    PlaneItem {
        item_class: class.row(),
        kind,
        timestamp,
        number,
        size,
        ..PlaneItem::default()
    }
}

impl From<Item> for PlaneItem {
    ghost from_gives = { ItemFlat };

    #[tactic(auto, unfolding(crate::specs::Flat::flat_item))]
    fn from(item: Item) -> PlaneItem {
        match item {
            Item::Channel(x) => chip_item(Class::Channel, x.card, x.chip, x.channel, 0, 0),
            Item::Histogram(x) => chip_item(Class::Histogram, x.card, x.chip, x.channel, 0, 0),
            Item::HitCount(x) => chip_item(Class::HitCount, x.card, x.chip, 0, x.count, 0),
            Item::Sample(x) => value_item(Class::Sample, x.value, 0, 0, 0, 0),
            Item::Bin(x) => value_item(Class::Bin, 0, x.bin, x.count, 0, 0),
            Item::LastCell(x) => chip_item(Class::LastCell, 0, x.chip, 0, 0, x.cell),
            Item::TimeBin(x) => value_item(Class::TimeBin, 0, 0, 0, x.time, 0),
            Item::Text(x) => value_item(Class::Text, 0, 0, 0, 0, x.length),
            Item::StartEvent(x) => event_item(Class::StartEvent, x.kind, x.timestamp, x.number, 0),
            Item::EndEvent(x) => event_item(Class::EndEvent, 0, 0, 0, x.size),
            Item::ContinueEvent(x) => event_item(Class::ContinueEvent, 0, 0, x.number, 0),
        }
    }
}

impl From<Result<IndexedItem, Refusal>> for PlaneFound {
    ghost from_gives = { FoundFlat };

    #[tactic(auto, unfolding(crate::specs::Flat::flat_found))]
    fn from(found: Result<IndexedItem, Refusal>) -> PlaneFound {
        match found {
            Ok(x) => PlaneFound {
                index: x.index,
                next: x.next,
                item: x.item.into(),
                ..PlaneFound::default()
            },
            Err(r) => PlaneFound {
                refused: r.fault.number(),
                place: r.place,
                ..PlaneFound::default()
            },
        }
    }
}

// Item n of a frame, from 0: `frame::item`.
pub fn plane_item(frame: &[u8], n: usize) -> PlaneFound
    ensures { ItemTold frame.now n result }
{
    item(frame, n).into()
}

// Where the bytes of the text that is item n lie, without the final zero, in the frame itself: right after the text's word. An export cannot answer
// with the part that `frame::text` gives, so its place is worked out from the item question, as that function does.
pub fn plane_text(frame: &[u8], n: usize) -> PlaneText
    ensures { TextPart frame.now n result }
{
    let found = PlaneFound::from(item(frame, n));
    let count = found.item.length as usize;
    if count < 1 {
        return PlaneText::default();
    }
    PlaneText {
        offset: 2 * (found.next - (count + 1) / 2),
        length: count - 1,
    }
}
