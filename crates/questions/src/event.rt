// The event question.
ghost use Rattle.std.specs.Prelude.{◌≡◌, ◌+◌, ◌<◌, length};
ghost use Rattle.format.specs.Words.{word_at};
ghost use Rattle.format.specs.Book.{class_of, continue_event};
ghost use Rattle.format.specs.Rules.{data_kind, same};
ghost use Rattle.questions.specs.Views.{event_of, view_event};
ghost use Rattle.format.specs.Cursor.{items_from};
ghost use Rattle.questions.specs.Sought.{Amid, started_at, continued_at, opened_at, inside_at, EventSought, event_in};
ghost use Rattle.questions.specs.Promises.{EventAnswered};

use crate::answers::{Beginning, Event};
use crate::items::Items;
use crate::scan::{end_size, seek_event};
use book::class::{Class, classify};
use book::items::StartEvent;
use book::refusal::{Fault, Refusal};
use book::words::{long, time, word};
use rules::state::Kind;

// The word is a Continue event's: the event began in another frame.
fn is_continued(w: u16) -> bool
    ensures { result ≡ same (class_of w) continue_event }
{
    classify(w) == Class::ContinueEvent
}

// The index behind the item that opens the event: a Continue event has three words, a Start event six.
pub(crate) fn inside_at(s: &[u8], at: usize) -> usize
    requires { at < length s.now }
    ensures { result ≡ inside_at s.now at }
{
    let w = word(s, at);
    if is_continued(w) {
        return at + 3;
    }
    at + 6
}

// The event whose Start event stands at the word.
fn started_at(s: &[u8], at: usize, w: u16) -> Event
    requires { (at < length s.now) × (w ≡ word_at s.now at) × Amid s.now data_kind (at + 6) }
    ensures { event_of result ≡ (started_at s.now at).event }
{
    Event {
        began: Some(Beginning {
            kind: StartEvent::of_word(w),
            timestamp: time(s, at + 1),
        }),
        number: long(s, at + 4),
        ended: end_size(s, at + 6),
        index: at,
    }
}

// The event that goes on with the Continue event at the word.
fn continued_at(s: &[u8], at: usize) -> Event
    requires { (at < length s.now) × Amid s.now data_kind (at + 3) }
    ensures { event_of result ≡ (continued_at s.now at).event }
{
    Event {
        began: None,
        number: long(s, at + 1),
        ended: end_size(s, at + 3),
        index: at,
    }
}

// The event that the item at the word opens.
fn event_at(s: &[u8], at: usize) -> Event
    requires { (at < length s.now) × Amid s.now data_kind (inside_at s.now at) }
    ensures { event_of result ≡ (opened_at s.now at).event }
{
    let w = word(s, at);
    if is_continued(w) {
        return continued_at(s, at);
    }
    started_at(s, at, w)
}

impl Items<'_> {
    // Where event e begins: only a data frame has events.
    pub(crate) fn find_event(self, e: usize) -> Option<usize>
        ensures { EventSought self.entry.bytes.now e result }
    {
        if self.kind != Kind::Data {
            return None;
        }
        seek_event(self.bytes, e)
    }

    // Event e.
    fn event(self, e: usize) -> Result<Event, Refusal>
        ensures { view_event result ≡ event_in (items_from self.entry.bytes.now 3) e }
    {
        let at = self.find_event(e).ok_or(Fault::Absent)?;
        Ok(event_at(self.bytes, at))
    }
}

// Event e, from 0, of a frame: its type, timestamp, number, size and the index of its Start event word. A part that a Continue event opens is
// event 0, by the index of that word; what stands in another frame is missing. Refuses as `read` does, then 13 where there is no
// such event.
pub fn event(s: &[u8], e: usize) -> Result<Event, Refusal>
    ensures { EventAnswered s.now e result }
{
    let items = Items::of(s)?;
    items.event(e)
}
