// The class of a word, by prefixes of varying length, tried shortest first; the page tells it.
ghost use Rattle.book.specs.Promises.{Classified, RowTold, ClassOf, TextLong, WordsAfter};

use crate::page::{
    BIN, CHANNEL, COMMAND_FRAME, CONTINUE_EVENT, DATA_FRAME, END_EVENT, FRAME_END, HISTOGRAM,
    HIT_COUNT, LAST_CELL, MONITOR_FRAME, NONE, SAMPLE, START_EVENT, TEXT, TIME_BIN, classify_on,
    page,
};

// A class of document 01's word book, numbered by its row there, behind them those of document 02; 0 is that of a word that no row has.
#[derive(Clone, Copy, Debug, PartialEq, Eq)]
pub enum Class {
    Unassigned = 0,
    Channel = 1,
    Histogram = 2,
    HitCount = 3,
    Sample = 4,
    Bin = 5,
    LastCell = 6,
    TimeBin = 7,
    DataFrame = 8,
    MonitorFrame = 9,
    CommandFrame = 10,
    Text = 11,
    StartEvent = 12,
    EndEvent = 13,
    FrameEnd = 14,
    ContinueEvent = 15,
}

impl Class {
    // The first words of the classes of high byte 0: a frame's end has no other word, an event's end reaches to its start, that to the last of them.
    pub const FRAME_END: u16 = 0x000F;

    pub const END_EVENT: u16 = 0x00E0;

    pub const START_EVENT: u16 = 0x00F0;

    // The first words of two classes with longer prefixes.
    pub const TEXT: u16 = 0x0100;

    pub const TIME_BIN: u16 = 0x0E00;

    // The first words of the classes with the shortest prefixes: each reaches from its own to the next one's, the Channel's to the last word.
    pub const LAST_CELL: u16 = 0x1800;

    pub const BIN: u16 = 0x2000;

    pub const SAMPLE: u16 = 0x3000;

    pub const HIT_COUNT: u16 = 0x4000;

    pub const HISTOGRAM: u16 = 0x8000;

    pub const CHANNEL: u16 = 0xC000;
}

impl Class {
    // The row of the class in the documents' table, from 1 on; 0 where it has none.
    pub fn row(self) -> u32
        ensures { RowTold self result }
    {
        self as u32
    }
}

// A number that is no class's row.
#[derive(Clone, Copy, Debug, PartialEq, Eq)]
pub struct NoClass;

impl TryFrom<u32> for Class {
    type Error = NoClass;

    ghost try_from_gives = { ClassOf };

    fn try_from(row: u32) -> Result<Class, NoClass> {
        match u8::try_from(row) {
            Ok(NONE) => Ok(Class::Unassigned),
            Ok(CHANNEL) => Ok(Class::Channel),
            Ok(HISTOGRAM) => Ok(Class::Histogram),
            Ok(HIT_COUNT) => Ok(Class::HitCount),
            Ok(SAMPLE) => Ok(Class::Sample),
            Ok(BIN) => Ok(Class::Bin),
            Ok(LAST_CELL) => Ok(Class::LastCell),
            Ok(TIME_BIN) => Ok(Class::TimeBin),
            Ok(DATA_FRAME) => Ok(Class::DataFrame),
            Ok(MONITOR_FRAME) => Ok(Class::MonitorFrame),
            Ok(COMMAND_FRAME) => Ok(Class::CommandFrame),
            Ok(TEXT) => Ok(Class::Text),
            Ok(START_EVENT) => Ok(Class::StartEvent),
            Ok(END_EVENT) => Ok(Class::EndEvent),
            Ok(FRAME_END) => Ok(Class::FrameEnd),
            Ok(CONTINUE_EVENT) => Ok(Class::ContinueEvent),
            _ => Err(NoClass),
        }
    }
}

// The class of a word: that of the search, shortest prefix first.
pub fn classify(w: u16) -> Class
    ensures { Classified w result }
{
    let rows = page();
    classify_on(&rows, w)
}

// The words that a text of n bytes takes, n in the word's low byte: n/2, rounded up.
pub fn text_words(w: u16) -> u16
    ensures { TextLong w result }
{
    (w & 0xFF) + 1 >> 1
}

// How many words come after a word as its own.
pub fn words_after(w: u16) -> u16
    ensures { WordsAfter w result }
{
    match classify(w) {
        Class::Bin | Class::EndEvent | Class::ContinueEvent => 2,
        Class::Text => text_words(w),
        Class::StartEvent => 5,
        _ => 0,
    }
}
