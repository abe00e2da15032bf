// What is asked for and answered about a record and the items of its frame.
ghost use Rattle.records.specs.Promises.{HeaderOf, SpotKindOf};

use book::items;

// What a Channel or Histogram item says of the items that follow it; zeros before any. It has the shape of book's `Header`, and no prefix: a spot
// may stand under an item of either class, and under none.
#[derive(Clone, Copy, Debug, PartialEq, Eq, Default)]
pub struct Header {
    pub card: u16,
    pub chip: u16,
    pub channel: u16,
}

impl<const PREFIX: u16> From<items::Header<PREFIX>> for Header {
    ghost from_gives = { HeaderOf };

    fn from(x: items::Header<PREFIX>) -> Header {
        Header {
            card: x.card,
            chip: x.chip,
            channel: x.channel,
        }
    }
}

// The kinds of item that may be corrected, by their number in an entry.
#[derive(Clone, Copy, Debug, PartialEq, Eq)]
pub enum SpotKind {
    Sample = 1,
    Bin = 2,
}

// The same numbers as patterns, so that each is written once.
impl SpotKind {
    const SAMPLE: u16 = SpotKind::Sample as u16;

    const BIN: u16 = SpotKind::Bin as u16;
}

// A number that is no kind's.
#[derive(Clone, Copy, Debug, PartialEq, Eq)]
pub struct NoKind;

impl TryFrom<u16> for SpotKind {
    type Error = NoKind;

    ghost try_from_gives = { SpotKindOf };

    fn try_from(number: u16) -> Result<SpotKind, NoKind> {
        match number {
            SpotKind::SAMPLE => Ok(SpotKind::Sample),
            SpotKind::BIN => Ok(SpotKind::Bin),
            _ => Err(NoKind),
        }
    }
}

// A Sample or Bin: its kind, its value, and the header it stands under.
#[derive(Clone, Copy, Debug, PartialEq, Eq)]
pub struct Spot {
    pub kind: SpotKind,
    pub value: u32,
    pub header: Header,
}

// An accepted record: its frame's length in bytes, how many entries it has, and its own length in bytes.
#[derive(Clone, Copy, Debug, PartialEq, Eq)]
pub struct Record {
    pub length: usize,
    pub count: usize,
    pub total: usize,
}

impl Record {
    // The version that is opened and edited, and the one before it, which is read, restored and listed.
    pub const VERSION: u16 = 2;

    pub const FIRST_VERSION: u16 = 1;

    // How many frames a record has.
    pub const FRAMES: u16 = 1;

    // The bytes of the header; the frame stands right behind it.
    pub const HEADER: usize = 16;

    // The most entries that may stand.
    pub const MOST: usize = 512;

    // The header's words, by their index.
    pub const VERSION_WORD: usize = 0;

    pub const FRAMES_WORD: usize = 1;

    pub const OFFSET_WORD: usize = 2;

    pub const LENGTH_WORD: usize = 3;

    pub const HISTORY_WORD: usize = 4;

    pub const COUNT_WORD: usize = 5;

    pub const TOTAL_WORD: usize = 6;

    // Always 0.
    pub const LAST_WORD: usize = 7;
}

// An accepted record, and the Sample or Bin that begins at the word asked for, where one does.
#[derive(Clone, Copy, Debug, PartialEq, Eq)]
pub struct Judged {
    pub record: Record,
    pub spot: Option<Spot>,
}

// What an entry of version 2 keeps after the reason: the time that was given with the correction, and a desk number, 0 for now.
#[derive(Clone, Copy, Debug, PartialEq, Eq)]
pub struct Stamp {
    pub time: u64,
    pub desk: u16,
}

// An entry of the history: the value at a word was changed from old to new. In version 1 it keeps no stamp.
#[derive(Clone, Copy, Debug, PartialEq, Eq)]
pub struct Entry {
    pub word: u16,
    pub kind: u16,
    pub old: u32,
    pub new: u32,
    pub operator: u16,
    pub reason: u16,
    pub stamp: Option<Stamp>,
}

impl Entry {
    // The bytes of an entry, and of one of version 1.
    pub const SIZE: usize = 24;

    pub const FIRST_SIZE: usize = 16;

    // Its words, by their index: that of the item's word index, of its kind, the low words of the old and of the new value, who signed and why; in
    // version 2 the low word of the time, and the desk.
    pub const INDEX_WORD: usize = 0;

    pub const KIND_WORD: usize = 1;

    pub const OLD_WORD: usize = 2;

    pub const NEW_WORD: usize = 4;

    pub const OPERATOR_WORD: usize = 6;

    pub const REASON_WORD: usize = 7;

    pub const TIME_WORD: usize = 8;

    pub const DESK_WORD: usize = 11;

    // Who may sign, and the reasons there are: from 1 on.
    pub const LAST_OPERATOR: u32 = 65535;

    pub const LAST_REASON: u32 = 5;

    // The last time that 6 bytes hold, and the one desk there is.
    pub const LAST_TIME: u64 = 281474976710655;

    pub const DESK: u16 = 0;
}
