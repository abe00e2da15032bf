// What the event question answers.

// Where an event began: its type (`type` is a word of the language) and timestamp, as its Start event has them.
#[derive(Clone, Copy, Debug, PartialEq, Eq)]
pub struct Beginning {
    pub kind: u16,
    pub timestamp: u64,
}

// An event, or the part of one that stands in this frame: what stands in another frame is missing here.
#[derive(Clone, Copy, Debug, PartialEq, Eq)]
pub struct Event {
    // Where its Start event stands in this frame.
    pub began: Option<Beginning>,
    pub number: u32,
    // Its size in bytes, where its End event stands in this frame.
    pub ended: Option<u32>,
    // That of its Start or Continue event word.
    pub index: usize,
}
