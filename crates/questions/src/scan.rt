// Scans over the items of an accepted frame, whose words are counted from the frame's first. A test of a word tells what most items are at once;
// whatever it does not tell goes by the cursor, item by item.
ghost use Rattle.std.specs.Prelude.{◌≡◌, ◌+◌, ◌*◌, ◌<◌, ◌&&◌, eqb, length};
ghost use Rattle.format.specs.Words.{word_at, long_at};
ghost use Rattle.format.specs.Rules.{data_kind, monitor_kind, gather};
ghost use Rattle.format.specs.Cursor.{items_from};
ghost use Rattle.format.specs.Questions.{end_size, head_of};
ghost use Rattle.book.specs.Views.{view_item};
ghost use Rattle.questions.specs.Views.{view_ended};
ghost use Rattle.questions.specs.Sought.{Amid, opens_event, ends_event, is_header, EventSought, ChannelSought, HistogramSought};

use book::class::Class;
use book::items::{Channel, Header, Histogram, Item};
use book::words::long;
use cursor::item_at;

// The index of a frame's first item.
pub(crate) const FIRST: usize = 3;

// The word at index i, which is there: so there is no second test here. frame/src/inside.rt and records/src/scan.rt have the same: it stays in its
// crate, since no public function has a `requires`.
pub(crate) fn word_in(s: &[u8], i: usize) -> u16
    requires { 2 * i + 1 < length s.now }
    ensures { result ≡ word_at s.now i }
{
    u16::from_le_bytes([s[2 * i], s[2 * i + 1]])
}

// The number of 32 bits whose words at i and i + 1 are there.
pub(crate) fn long_in(s: &[u8], i: usize) -> u32
    requires { 2 * i + 3 < length s.now }
    ensures { result ≡ long_at s.now i }
{
    u32::from_le_bytes([s[2 * i], s[2 * i + 1], s[2 * i + 2], s[2 * i + 3]])
}

// It opens an event, or goes on with one.
fn is_opener(item: Item) -> bool
    ensures { result ≡ opens_event (view_item item) }
{
    matches!(item, Item::StartEvent(_) | Item::ContinueEvent(_))
}

fn is_end(item: Item) -> bool
    ensures { result ≡ ends_event (view_item item) }
{
    matches!(item, Item::EndEvent(_))
}

// The channel of a chip that a question asks for, of whatever card.
#[derive(Clone, Copy)]
pub(crate) struct Wanted {
    pub chip: u16,
    pub channel: u16,
}

impl Wanted {
    // The header is one of it.
    fn is<const PREFIX: u16>(self, x: Header<PREFIX>) -> bool
        ensures { result ≡ (eqb x.entry.chip self.chip && eqb x.entry.channel self.channel) }
    {
        (x.chip == self.chip) & (x.channel == self.channel)
    }

    // The item is a Channel or a Histogram header of it. No frame has both.
    fn is_header(self, item: Item) -> bool
        ensures { result ≡ is_header self.chip self.channel (view_item item) }
    {
        match item {
            Item::Channel(x) => self.is(x),
            Item::Histogram(x) => self.is(x),
            _ => false,
        }
    }
}

// Where event e of a data frame begins. From a Time bin's first word on, its items are of one word and begin or end no event.
pub(crate) fn seek_event(s: &[u8], e: usize) -> Option<usize>
    requires { Amid s.now data_kind 3 }
    ensures { EventSought s.now e result }
{
    let last = s.len() / 2 - 1;
    // Here as in the loops below the index jumps by an item's length: it is not one that is counted by hand.
    let mut at = FIRST;
    let mut left = e;
    while at < last {
        let w = word_in(s, at);
        if Class::TIME_BIN <= w {
            at += 1;
            continue;
        }
        let x = item_at(s, at)?;
        if is_opener(x.item) {
            if left == 0 {
                return Some(at);
            }
            left -= 1;
        }
        at = x.next;
    }
    None
}

// The size that the first End event from here on gives, if there is one.
pub(crate) fn end_size(s: &[u8], from: usize) -> Option<u32>
    requires { Amid s.now data_kind from }
    ensures { view_ended result ≡ head_of (gather end_size (items_from s.now from)) }
{
    let last = s.len() / 2 - 1;
    let mut at = from;
    while at < last {
        let w = word_in(s, at);
        if Class::TIME_BIN <= w {
            at += 1;
            continue;
        }
        let x = item_at(s, at)?;
        if is_end(x.item) {
            return Some(long(s, at + 1));
        }
        at = x.next;
    }
    None
}

// Where the items behind a Channel header begin, of those before the first End event from here on.
pub(crate) fn seek_channel(s: &[u8], from: usize, wanted: Wanted) -> Option<usize>
    requires { Amid s.now data_kind from }
    ensures { ChannelSought s.now from wanted.chip wanted.channel result }
{
    let last = s.len() / 2 - 1;
    let mut at = from;
    while at < last {
        let w = word_in(s, at);
        if (Class::TIME_BIN <= w) & (w < Class::CHANNEL) {
            at += 1;
            continue;
        }
        if Class::CHANNEL <= w {
            let x = Channel::of_word(w);
            if wanted.is(x) {
                return Some(at + 1);
            }
            at += 1;
            continue;
        }
        let x = item_at(s, at)?;
        if is_end(x.item) {
            return None;
        }
        if wanted.is_header(x.item) {
            return Some(x.next);
        }
        at = x.next;
    }
    None
}

// Where the items behind a Histogram header begin, of a monitor frame's items. No Channel stands in such a frame, nor Samples and Hit counts.
pub(crate) fn seek_histogram(s: &[u8], wanted: Wanted) -> Option<usize>
    requires { Amid s.now monitor_kind 3 }
    ensures { HistogramSought s.now wanted.chip wanted.channel result }
{
    let last = s.len() / 2 - 1;
    let mut at = FIRST;
    while at < last {
        let w = word_in(s, at);
        if (Class::BIN <= w) & (w < Class::HISTOGRAM) {
            at += 3;
            continue;
        }
        if Class::HISTOGRAM <= w {
            let x = Histogram::of_word(w);
            if wanted.is(x) {
                return Some(at + 1);
            }
            at += 1;
            continue;
        }
        let x = item_at(s, at)?;
        if wanted.is_header(x.item) {
            return Some(x.next);
        }
        at = x.next;
    }
    None
}
