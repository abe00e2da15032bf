// The writer's calls on a partial frame in a lent buffer.
ghost use Rattle.std.specs.Prelude.{◌≡◌};
ghost use Rattle.format.specs.Items.{flawed};
ghost use Rattle.format.specs.Writing.{add_answer};
ghost use Rattle.book.specs.Refusals.{number_of};
ghost use Rattle.writer.specs.Views.{view_written};
ghost use Rattle.exports.specs.Given.{view_given, token_of};
ghost use Rattle.exports.specs.Promises.{WrittenFlat, Begun, Added, AddedText, Closed};

use crate::answers::{PlaneItem, PlaneWritten};
use book::class::Class;
use book::items::{
    Bin, Channel, ContinueEvent, EndEvent, Histogram, HitCount, Item, LastCell, Sample, StartEvent,
    Text, TimeBin,
};
use book::refusal::{Fault, Refusal};
use frame::partial::partial;
use rules::state::Kind;
use writer::calls::{add, add_text, begin, close};

impl From<Result<usize, Refusal>> for PlaneWritten {
    ghost from_gives = { WrittenFlat };

    #[tactic(auto, unfolding(crate::specs::Flat::flat_written))]
    fn from(written: Result<usize, Refusal>) -> PlaneWritten {
        match written {
            Ok(length) => PlaneWritten {
                length,
                ..PlaneWritten::default()
            },
            Err(r) => PlaneWritten {
                refused: r.fault.number(),
                place: r.place,
                ..PlaneWritten::default()
            },
        }
    }
}

// Begins a partial frame: `writer::begin`. A kind that is not 1, 2 or 3 is refused first, by 2.
#[tactic(auto, using(crate::proofs::GivenLaws::no_kind), unfolding(crate::specs::Flat::flat_written))]
pub fn plane_begin(buffer: &mut [u8], kind: u16, card: u16, sequence: u16) -> PlaneWritten
    ensures { Begun buffer.old kind card sequence result buffer.new }
{
    match Kind::try_from(kind) {
        Ok(kind) => begin(buffer, kind, card, sequence).into(),
        Err(_) => PlaneWritten {
            refused: Fault::Kind.number(),
            ..PlaneWritten::default()
        },
    }
}

// What a flat item says: an item, or what its class is refused by. Frame starts and Frame end are never items: 8. A number that no class has is 6.
#[tactic(auto, unfolding(crate::specs::Given::token_of))]
fn item_given(x: PlaneItem) -> Result<Item, Fault>
    ensures { view_given result ≡ token_of x }
{
    let class = Class::try_from(x.item_class).map_err(|_| Fault::Class)?;
    match class {
        Class::Channel => Ok(Item::Channel(Channel {
            card: x.card,
            chip: x.chip,
            channel: x.channel,
        })),
        Class::Histogram => Ok(Item::Histogram(Histogram {
            card: x.card,
            chip: x.chip,
            channel: x.channel,
        })),
        Class::HitCount => Ok(Item::HitCount(HitCount {
            card: x.card,
            chip: x.chip,
            count: x.hits,
        })),
        Class::Sample => Ok(Item::Sample(Sample { value: x.value })),
        Class::Bin => Ok(Item::Bin(Bin {
            bin: x.bin,
            count: x.count,
        })),
        Class::LastCell => Ok(Item::LastCell(LastCell {
            chip: x.chip,
            cell: x.cell,
        })),
        Class::TimeBin => Ok(Item::TimeBin(TimeBin { time: x.time })),
        Class::DataFrame => Err(Fault::Place),
        Class::MonitorFrame => Err(Fault::Place),
        Class::CommandFrame => Err(Fault::Place),
        Class::Text => Ok(Item::Text(Text { length: x.length })),
        Class::StartEvent => Ok(Item::StartEvent(StartEvent {
            kind: x.kind,
            timestamp: x.timestamp,
            number: x.number,
        })),
        Class::EndEvent => Ok(Item::EndEvent(EndEvent { size: x.size })),
        Class::FrameEnd => Err(Fault::Place),
        Class::ContinueEvent => Ok(Item::ContinueEvent(ContinueEvent { number: x.number })),
        Class::Unassigned => Err(Fault::Class),
    }
}

// The answer where no item was handed over: what is wrong with the partial frame, then the fault, at the word where the item would start.
fn refuse_item(buffer: &[u8], length: usize, fault: Fault) -> Result<usize, Refusal>
    ensures { view_written result ≡ add_answer buffer.now length (flawed (number_of fault)) }
{
    partial(buffer, length)?;
    Err(fault.at(length / 2))
}

// Adds an item to the partial frame in the first `length` bytes: `writer::add`.
pub fn plane_add(buffer: &mut [u8], length: usize, item: PlaneItem) -> PlaneWritten
    ensures { Added buffer.old length item result buffer.new }
{
    match item_given(item) {
        Ok(x) => add(buffer, length, x).into(),
        Err(fault) => refuse_item(buffer, length, fault).into(),
    }
}

// Adds a text, which comes without its final zero: `writer::add_text`.
pub fn plane_add_text(buffer: &mut [u8], length: usize, text: &[u8]) -> PlaneWritten
    ensures { AddedText buffer.old length text.now result buffer.new }
{
    add_text(buffer, length, text).into()
}

// Closes the partial frame in the first `length` bytes: `writer::close`.
pub fn plane_close(buffer: &mut [u8], length: usize) -> PlaneWritten
    ensures { Closed buffer.old length result buffer.new }
{
    close(buffer, length).into()
}
