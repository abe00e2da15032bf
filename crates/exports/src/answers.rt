// What the exports take and answer, laid out as C lays out structs. In every answer `refused` is 0 where the call was accepted, else document 01's
// number of the refusal, and `place` is its place; a field that an answer does not use is 0, as in `default()`. Every item field is as wide as the
// writer takes it.

// Accepted, or refused: the calls that answer only that.
#[repr(C)]
#[derive(Clone, Copy, Default)]
pub struct PlaneDone {
    pub refused: u32,
    pub place: usize,
}

// A frame: its kind (1 data, 2 monitor, 3 command), card, sequence word and number of items.
#[repr(C)]
#[derive(Clone, Copy, Default)]
pub struct PlaneFrame {
    pub refused: u32,
    pub place: usize,
    pub kind: u16,
    pub card: u16,
    pub sequence: u16,
    pub items: usize,
}

// An item: its class, as the row of the word book from 1 on, and the fields that the class has; the others are 0.
#[repr(C)]
#[derive(Clone, Copy, Default)]
pub struct PlaneItem {
    pub item_class: u32,
    // Channel, Histogram and Hit count.
    pub card: u16,
    // These, and Last cell.
    pub chip: u16,
    // Channel and Histogram.
    pub channel: u16,
    // Hit count.
    pub hits: u16,
    // Sample.
    pub value: u16,
    // Bin, with `count`.
    pub bin: u16,
    // Last cell.
    pub cell: u16,
    // Time bin.
    pub time: u16,
    // Text: its bytes, the final zero included.
    pub length: u16,
    // Start event: its type, with `number` and `timestamp`.
    pub kind: u16,
    pub count: u32,
    // And Continue event.
    pub number: u32,
    // End event.
    pub size: u32,
    pub timestamp: u64,
}

// An item, its own word index, and that of the next one, or of the end word.
#[repr(C)]
#[derive(Clone, Copy, Default)]
pub struct PlaneFound {
    pub refused: u32,
    pub place: usize,
    pub index: usize,
    pub next: usize,
    pub item: PlaneItem,
}

// The bytes of a text: a part of the caller's own frame, from `offset` on. It is empty where the item is no text.
#[repr(C)]
#[derive(Clone, Copy, Default)]
pub struct PlaneText {
    pub offset: usize,
    pub length: usize,
}

// An event, or the part of one that stands in the frame: its type, timestamp, number, size in bytes, and the word index of its Start or Continue
// event. Where `began` is 0 it began in another frame, which has its type and timestamp; where `ended` is 0 it does not end in this one, and another
// has its size.
#[repr(C)]
#[derive(Clone, Copy, Default)]
pub struct PlaneEvent {
    pub refused: u32,
    pub place: usize,
    pub began: u8,
    pub ended: u8,
    pub kind: u16,
    pub number: u32,
    pub timestamp: u64,
    pub size: u32,
    pub index: usize,
}

// The word index of a sample or a bin: what an edit takes.
#[repr(C)]
#[derive(Clone, Copy, Default)]
pub struct PlaneWord {
    pub refused: u32,
    pub place: usize,
    pub word: usize,
}

// The new length of the partial frame, or of the closed one.
#[repr(C)]
#[derive(Clone, Copy, Default)]
pub struct PlaneWritten {
    pub refused: u32,
    pub place: usize,
    pub length: usize,
}

// What the follower knows: idle where `expecting` is 0, else it expects the number. All zeros is a follower that has seen nothing.
#[repr(C)]
#[derive(Clone, Copy, Default)]
pub struct PlaneFollower {
    pub expecting: u8,
    pub number: u8,
}

// How many frames were lost before this one, and the follower from here on; on a refusal it is the one that was given.
#[repr(C)]
#[derive(Clone, Copy, Default)]
pub struct PlaneFollowed {
    pub refused: u32,
    pub place: usize,
    pub lost: u8,
    pub next: PlaneFollower,
}

// An assembler of a card's data frames: its follower, and where `open` is not 0 the event that is open: its number, its bytes so far in all parts,
// and the least key that its next Channel header may have. All zeros is an assembler of card 0 that has taken nothing.
#[repr(C)]
#[derive(Clone, Copy, Default)]
pub struct PlaneAssembler {
    pub card: u16,
    pub open: u8,
    pub follower: PlaneFollower,
    pub number: u32,
    pub size: u32,
    pub key: u32,
}

// How many frames were lost before this one, and the assembler from here on; on a refusal it is the one that was given.
#[repr(C)]
#[derive(Clone, Copy, Default)]
pub struct PlaneTaken {
    pub refused: u32,
    pub place: usize,
    pub lost: u8,
    pub next: PlaneAssembler,
}

// A record: its frame's length in bytes, how many entries it has, and its own length in bytes.
#[repr(C)]
#[derive(Clone, Copy, Default)]
pub struct PlaneRecord {
    pub refused: u32,
    pub place: usize,
    pub length: usize,
    pub count: usize,
    pub total: usize,
}

// An entry of a record's history: the value at a word, of a sample (kind 1) or a bin (kind 2), was changed. Of a record of version 2 it has the time
// that was given, and `timed` is 1; of version 1 both are 0.
#[repr(C)]
#[derive(Clone, Copy, Default)]
pub struct PlaneEntry {
    pub refused: u32,
    pub place: usize,
    pub word: u16,
    pub kind: u16,
    pub old_value: u32,
    pub new_value: u32,
    pub operator_id: u16,
    pub reason: u16,
    pub timed: u8,
    pub time: u64,
}

// Where a list of corrections stopped: the refusal of the first that was refused, and its position in the list, from 0. Those before it stand. All
// is 0 where every correction was made.
#[repr(C)]
#[derive(Clone, Copy, Default)]
pub struct PlaneStopped {
    pub refused: u32,
    pub place: usize,
    pub position: usize,
}
