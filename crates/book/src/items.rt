// The eleven items: what each holds, its limits, its fields cut out of a word by shifts and masks and put in the same way. The fields are wide
// enough that a content too wide for the word can be handed to the writer, which refuses it. Each limit is named in its item, once; that of a
// card, which a frame start has too, before them.
ghost use Rattle.std.specs.Prelude.{◌≡◌};
ghost use Rattle.book.specs.Fields.{header_bits_cut};
ghost use Rattle.book.specs.Promises.{KeyTold, HeaderRead, HeaderWord, HeaderValid, HitCountRead, HitCountWord, HitCountValid, SampleRead, SampleWord, SampleValid, BinRead, BinWord, BinValid, LastCellRead, LastCellWord, LastCellValid, TimeBinRead, TimeBinWord, TimeBinValid, TextRead, TextWord, StartEventRead, StartEventWord, StartEventValid, EndEventLow, ContinueEventLow};

use crate::class::Class;

// The last card: five bits of a word.
pub const LAST_CARD: u16 = 31;

// A channel of a chip of a card, for the items that follow: the item's word begins with the prefix.
#[derive(Clone, Copy, Debug, PartialEq, Eq)]
pub struct Header<const PREFIX: u16> {
    pub card: u16,
    pub chip: u16,
    pub channel: u16,
}

// A channel whose samples follow. (A const argument is a literal: that each is its class's first word is proved, proofs/Headers.antt.)
pub type Channel = Header<0xC000>;

// A channel whose histogram follows: every channel may have one.
pub type Histogram = Header<0x8000>;

// How many channels of a chip were hit.
#[derive(Clone, Copy, Debug, PartialEq, Eq)]
pub struct HitCount {
    pub card: u16,
    pub chip: u16,
    pub count: u16,
}

#[derive(Clone, Copy, Debug, PartialEq, Eq)]
pub struct Sample {
    pub value: u16,
}

// How often a value was met.
#[derive(Clone, Copy, Debug, PartialEq, Eq)]
pub struct Bin {
    pub bin: u16,
    pub count: u32,
}

#[derive(Clone, Copy, Debug, PartialEq, Eq)]
pub struct LastCell {
    pub chip: u16,
    pub cell: u16,
}

#[derive(Clone, Copy, Debug, PartialEq, Eq)]
pub struct TimeBin {
    pub time: u16,
}

// A text of n bytes, the final zero included; its bytes are fetched by a question of their own.
#[derive(Clone, Copy, Debug, PartialEq, Eq)]
pub struct Text {
    pub length: u16,
}

// An event begins: its type (`type` is a word of the language), timestamp and number.
#[derive(Clone, Copy, Debug, PartialEq, Eq)]
pub struct StartEvent {
    pub kind: u16,
    pub timestamp: u64,
    pub number: u32,
}

// The size of the event in bytes.
#[derive(Clone, Copy, Debug, PartialEq, Eq)]
pub struct EndEvent {
    pub size: u32,
}

// The number of an event that began in another frame and goes on in this one.
#[derive(Clone, Copy, Debug, PartialEq, Eq)]
pub struct ContinueEvent {
    pub number: u32,
}

#[derive(Clone, Copy, Debug, PartialEq, Eq)]
pub enum Item {
    Channel(Channel),
    Histogram(Histogram),
    HitCount(HitCount),
    Sample(Sample),
    Bin(Bin),
    LastCell(LastCell),
    TimeBin(TimeBin),
    Text(Text),
    StartEvent(StartEvent),
    EndEvent(EndEvent),
    ContinueEvent(ContinueEvent),
}

// The low 14 bits of a word that three items share: card 5, chip 2 and 7 bits more, each cut to its width. The items put their prefix right of the
// `|`: on its left the prover computes with it, and shows a screenful.
fn header_bits(card: u16, chip: u16, low: u16) -> u16
    ensures { result ≡ header_bits_cut card chip low }
{
    (card & 0x1F) << 9 | (chip & 3) << 7 | low & 0x7F
}

// The order key by which Channel headers rise in an event, and Histogram headers in a frame. It is not the 14-bit content itself: there is
// room for sixteen chips (docs/DECISIONS.md).
pub fn key(card: u16, chip: u16, channel: u16) -> u32
    ensures { KeyTold card chip channel result }
{
    card as u32 * 2048 + chip as u32 * 128 + channel as u32
}

// The limits of a Channel, and of a Histogram. (In the generic impl each would be a call to the proof.)
impl Channel {
    pub const LAST_CARD: u16 = LAST_CARD; // that a Channel may have

    pub const LAST_CHIP: u16 = 3; // two bits of a Channel's word

    pub const LAST: u16 = 78; // the last channel of a chip
}

impl Histogram {
    pub const LAST_CARD: u16 = LAST_CARD; // that a Histogram may have

    pub const LAST_CHIP: u16 = 3; // two bits of a Histogram's word

    pub const LAST: u16 = Channel::LAST; // every channel may have a histogram
}

impl<const PREFIX: u16> Header<PREFIX> {
    // The fields of a word, high bits first: card 5, chip 2, channel 7.
    pub fn of_word(w: u16) -> Header<PREFIX>
        ensures { HeaderRead PREFIX w result }
    {
        Header {
            card: w >> 9 & 0x1F,
            chip: w >> 7 & 3,
            channel: w & 0x7F,
        }
    }

    // The word with these fields, each cut to its width.
    pub fn word(self) -> u16
        ensures { HeaderWord PREFIX self.entry result }
    {
        header_bits(self.card, self.chip, self.channel) | PREFIX
    }

    // The value rules in a frame of the card, by the limits of the prefix's class. Here and in the item below the card has a branch of its own: it
    // costs less than all the tests at once.
    pub fn valid(self, card: u16) -> bool
        ensures { HeaderValid PREFIX self.entry card result }
    {
        if self.card == card {
            if PREFIX == Class::CHANNEL {
                return (self.card <= Channel::LAST_CARD)
                    & (self.chip <= Channel::LAST_CHIP)
                    & (self.channel <= Channel::LAST);
            }
            return (self.card <= Histogram::LAST_CARD)
                & (self.chip <= Histogram::LAST_CHIP)
                & (self.channel <= Histogram::LAST);
        }
        false
    }
}

impl HitCount {
    pub const LAST_CARD: u16 = LAST_CARD; // that a Hit count may have

    pub const LAST_CHIP: u16 = 3; // two bits of a Hit count's word

    pub const MOST: u16 = 79; // every channel of a chip

    // The fields of a word, high bits first: card 5, chip 2, count 7.
    pub fn of_word(w: u16) -> HitCount
        ensures { HitCountRead w result }
    {
        HitCount {
            card: w >> 9 & 0x1F,
            chip: w >> 7 & 3,
            count: w & 0x7F,
        }
    }

    // The word with these fields, each cut to its width.
    pub fn word(self) -> u16
        ensures { HitCountWord self result }
    {
        header_bits(self.card, self.chip, self.count) | Class::HIT_COUNT
    }

    // The value rules in a frame of the card.
    pub fn valid(self, card: u16) -> bool
        ensures { HitCountValid self card result }
    {
        if self.card == card {
            return (self.card <= HitCount::LAST_CARD)
                & (self.chip <= HitCount::LAST_CHIP)
                & (self.count <= HitCount::MOST);
        }
        false
    }
}

impl Sample {
    pub const LAST: u16 = 4095; // the largest value of 12 bits

    pub fn of_word(w: u16) -> Sample
        ensures { SampleRead w result }
    {
        Sample { value: w & 0xFFF }
    }

    // The word with this value, cut to its width.
    pub fn word(self) -> u16
        ensures { SampleWord self result }
    {
        self.value & 0xFFF | Class::SAMPLE
    }

    pub fn valid(self) -> bool
        ensures { SampleValid self result }
    {
        self.value <= Sample::LAST
    }
}

impl Bin {
    pub const LAST: u16 = 4095; // the last bin of a histogram

    pub const LEAST_COUNT: u32 = 1;

    // The bin number of a word; the count stands in the two words after it.
    pub fn of_word(w: u16) -> u16
        ensures { BinRead w result }
    {
        w & 0xFFF
    }

    // The first word of the bin, its number cut to its width.
    pub fn word(self) -> u16
        ensures { BinWord self result }
    {
        self.bin & 0xFFF | Class::BIN
    }

    pub fn valid(self) -> bool
        ensures { BinValid self result }
    {
        (Bin::LEAST_COUNT <= self.count) & (self.bin <= Bin::LAST)
    }
}

impl LastCell {
    pub const LAST_CHIP: u16 = 3; // two bits of a Last cell's word

    pub const LAST: u16 = 511; // the last cell of a channel

    // The fields of a word, high bits first: chip 2, cell 9.
    pub fn of_word(w: u16) -> LastCell
        ensures { LastCellRead w result }
    {
        LastCell {
            chip: w >> 9 & 3,
            cell: w & 0x1FF,
        }
    }

    // The word with these fields, each cut to its width.
    pub fn word(self) -> u16
        ensures { LastCellWord self result }
    {
        (self.chip & 3) << 9 | self.cell & 0x1FF | Class::LAST_CELL
    }

    pub fn valid(self) -> bool
        ensures { LastCellValid self result }
    {
        (self.chip <= LastCell::LAST_CHIP) & (self.cell <= LastCell::LAST)
    }
}

impl TimeBin {
    pub const LAST: u16 = 511; // the last time of an event

    pub fn of_word(w: u16) -> TimeBin
        ensures { TimeBinRead w result }
    {
        TimeBin { time: w & 0x1FF }
    }

    // The word with this time, cut to its width.
    pub fn word(self) -> u16
        ensures { TimeBinWord self result }
    {
        self.time & 0x1FF | Class::TIME_BIN
    }

    pub fn valid(self) -> bool
        ensures { TimeBinValid self result }
    {
        self.time <= TimeBin::LAST
    }
}

impl Text {
    // The most bytes of a text, without the final zero.
    pub const MOST: usize = 254;

    pub fn of_word(w: u16) -> Text
        ensures { TextRead w result }
    {
        Text { length: w & 0xFF }
    }

    // The first word of the text, its length cut to its width.
    pub fn word(self) -> u16
        ensures { TextWord self result }
    {
        self.length & 0xFF | Class::TEXT
    }
}

impl StartEvent {
    pub const LAST_TYPE: u16 = 15;

    pub const LAST_TIMESTAMP: u64 = 281474976710655;

    // The type of a word; timestamp and number stand in the five words after it.
    pub fn of_word(w: u16) -> u16
        ensures { StartEventRead w result }
    {
        w & 0xF
    }

    // The first word of the event, its type cut to its width.
    pub fn word(self) -> u16
        ensures { StartEventWord self result }
    {
        self.kind & 0xF | Class::START_EVENT
    }

    pub fn valid(self) -> bool
        ensures { StartEventValid self result }
    {
        (self.kind <= StartEvent::LAST_TYPE) & (self.timestamp <= StartEvent::LAST_TIMESTAMP)
    }
}

impl EndEvent {
    // The first word of the item; its low four bits are zero.
    pub const WORD: u16 = Class::END_EVENT;

    // The low four bits of a word.
    pub fn low_bits(w: u16) -> u16
        ensures { EndEventLow w result }
    {
        w & 0xF
    }
}

impl ContinueEvent {
    // The first word of the item; its content is zero.
    pub const WORD: u16 = 0x0A00;

    // The content of a word.
    pub fn low_bits(w: u16) -> u16
        ensures { ContinueEventLow w result }
    {
        w & 0x1FF
    }
}
