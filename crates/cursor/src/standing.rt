// The item that stands at a word of some bytes, wherever one asks: decoding alone, no rule of a frame is judged. Every scan over an accepted
// frame goes by it, item by item.
ghost use Rattle.std.specs.Prelude.{◌≡◌, ◌≤◌, ◌<◌};
ghost use Rattle.std.proofs.Math.Option.{some};
ghost use Rattle.format.specs.Words.{Bytes, word_at};
ghost use Rattle.format.specs.Book as book;
ghost use Rattle.format.specs.Frames.{last_of};
ghost use Rattle.format.specs.Cursor.{standing_at, shown_by};
ghost use Rattle.book.specs.Views.{view_item};
ghost use Rattle.cursor.specs.Views.{view_standing};
ghost use Rattle.cursor.specs.Promises.{StandingAnswered};

use crate::texts::is_closed;
use book::class::{Class, classify, text_words};
use book::items::{
    Bin, Channel, ContinueEvent, EndEvent, Histogram, HitCount, Item, LastCell, Sample, StartEvent,
    Text, TimeBin,
};
use book::words::{long, time, word};

// An item, and the index of the word behind it: of the next item, or of the end word.
#[derive(Clone, Copy, Debug, PartialEq, Eq)]
pub struct FoundItem {
    pub item: Item,
    pub next: usize,
}

// A word of some bytes at which an item may begin: behind their first three and before their last.
#[derive(Clone, Copy)]
struct FirstWord<'a> {
    s: &'a [u8],
    last: usize,
    at: usize,
    w: u16,
    ghost bytes: { Bytes s.now },
    ghost stands: { (3 ≤ at) × (at < last) × (last ≡ last_of s.now) × (w ≡ word_at s.now at) },
}

// The index of a frame's first item.
const FIRST: usize = 3;

// The item, and the index of the word behind it.
fn found(item: Item, next: usize) -> Option<FoundItem>
    ensures { view_standing result ≡ some (record { item = view_item item; next = next }) }
{
    Some(FoundItem { item, next })
}

impl FirstWord<'_> {
    // A Bin whose two words end before the last word.
    fn bin(self) -> Option<FoundItem>
        requires { book.bin ≡ book.class_of self.w }
        ensures { view_standing result ≡ shown_by (standing_at self.entry.s.now self.entry.at) }
    {
        if self.last < self.at + 3 {
            return None;
        }
        let count = long(self.s, self.at + 1);
        let x = Bin {
            bin: Bin::of_word(self.w),
            count,
        };
        found(Item::Bin(x), self.at + 3)
    }

    // A Start event whose five words end before the last word.
    fn start_event(self) -> Option<FoundItem>
        requires { book.start_event ≡ book.class_of self.w }
        ensures { view_standing result ≡ shown_by (standing_at self.entry.s.now self.entry.at) }
    {
        if self.last < self.at + 6 {
            return None;
        }
        let timestamp = time(self.s, self.at + 1);
        let number = long(self.s, self.at + 4);
        let x = StartEvent {
            kind: StartEvent::of_word(self.w),
            timestamp,
            number,
        };
        found(Item::StartEvent(x), self.at + 6)
    }

    // An End event whose low bits are 0 and whose two words end before the last word.
    fn end_event(self) -> Option<FoundItem>
        requires { book.end_event ≡ book.class_of self.w }
        ensures { view_standing result ≡ shown_by (standing_at self.entry.s.now self.entry.at) }
    {
        if self.last < self.at + 3 {
            return None;
        }
        if EndEvent::low_bits(self.w) != 0 {
            return None;
        }
        let size = long(self.s, self.at + 1);
        found(Item::EndEvent(EndEvent { size }), self.at + 3)
    }

    // A Continue event whose content is 0 and whose two words end before the last word.
    fn continue_event(self) -> Option<FoundItem>
        requires { book.continue_event ≡ book.class_of self.w }
        ensures { view_standing result ≡ shown_by (standing_at self.entry.s.now self.entry.at) }
    {
        if self.last < self.at + 3 {
            return None;
        }
        if ContinueEvent::low_bits(self.w) != 0 {
            return None;
        }
        let number = long(self.s, self.at + 1);
        found(Item::ContinueEvent(ContinueEvent { number }), self.at + 3)
    }

    // A text whose bytes are closed and end before the last word.
    fn text(self) -> Option<FoundItem>
        requires { book.text ≡ book.class_of self.w }
        ensures { view_standing result ≡ shown_by (standing_at self.entry.s.now self.entry.at) }
    {
        let more = text_words(self.w) as usize;
        let next = self.at + 1 + more;
        if self.last < next {
            return None;
        }
        let x = Text::of_word(self.w);
        let from = 2 * (self.at + 1);
        let to = 2 * next;
        if is_closed(&self.s[from..to], self.w) {
            return found(Item::Text(x), next);
        }
        None
    }

    // By the class of its word. Every class has an arm: of `_` the proof would know only which classes it is not.
    fn item(self) -> Option<FoundItem>
        ensures { view_standing result ≡ shown_by (standing_at self.entry.s.now self.entry.at) }
    {
        let class = classify(self.w);
        match class {
            Class::Channel => found(Item::Channel(Channel::of_word(self.w)), self.at + 1),
            Class::Histogram => found(Item::Histogram(Histogram::of_word(self.w)), self.at + 1),
            Class::HitCount => found(Item::HitCount(HitCount::of_word(self.w)), self.at + 1),
            Class::Sample => found(Item::Sample(Sample::of_word(self.w)), self.at + 1),
            Class::Bin => self.bin(),
            Class::LastCell => found(Item::LastCell(LastCell::of_word(self.w)), self.at + 1),
            Class::TimeBin => found(Item::TimeBin(TimeBin::of_word(self.w)), self.at + 1),
            Class::DataFrame => None,
            Class::MonitorFrame => None,
            Class::CommandFrame => None,
            Class::Text => self.text(),
            Class::StartEvent => self.start_event(),
            Class::EndEvent => self.end_event(),
            Class::FrameEnd => None,
            Class::Unassigned => None,
            Class::ContinueEvent => self.continue_event(),
        }
    }
}

// By the class of the word. The arguments come one by one: the struct would be handed over in memory, ten instructions an item.
fn any_item(s: &[u8], last: usize, at: usize, w: u16) -> Option<FoundItem>
    requires { (3 ≤ at) × (at < last) × (last ≡ last_of s.now) × (w ≡ word_at s.now at) }
    ensures { view_standing result ≡ shown_by (standing_at s.now at) }
{
    FirstWord { s, last, at, w }.item()
}

// The item at word `at` of some bytes, where one stands whole between their first three words and their last, and the index of the word behind
// it. Samples and Bins come one behind the other: they are told here, where a caller's loop has the test in it.
pub fn item_at(s: &[u8], at: usize) -> Option<FoundItem>
    ensures { StandingAnswered s.now at result }
{
    if at < FIRST {
        return None;
    }
    if s.len() / 2 <= at {
        return None;
    }
    let last = s.len() / 2 - 1;
    if last <= at {
        return None;
    }
    let w = word(s, at);
    if Class::HIT_COUNT <= w {
        return any_item(s, last, at, w);
    }
    if Class::SAMPLE <= w {
        return found(Item::Sample(Sample::of_word(w)), at + 1);
    }
    if Class::BIN <= w {
        return FirstWord { s, last, at, w }.bin();
    }
    any_item(s, last, at, w)
}
