// One turn of the rules at a word, and the one loop that takes such turns: every question on a frame goes through it.
ghost use Rattle.std.specs.Prelude.{◌≡◌, ℕ, ◌+◌, ◌*◌, ◌≤◌, ◌<◌, length, eqb};
ghost use Rattle.format.specs.Words.{Bytes, pick, word_at};
ghost use Rattle.format.specs.Book as book;
ghost use Rattle.format.specs.Steps.{step_of, summed};
ghost use Rattle.book.specs.Page.{book_page};
ghost use Rattle.rules.specs.Views.{view_kind, view_state, view_step};
ghost use Rattle.frame.specs.Views.{view_walk};

use crate::inside::{long, time, word};
use crate::repeats::{ahead, repeats_at};
use book::class::{Class, text_words};
use book::items::{
    Bin, Channel, ContinueEvent, EndEvent, Histogram, HitCount, LastCell, Sample, StartEvent,
    TimeBin,
};
use book::page::{classify_on, page};
use book::refusal::{Fault, Refusal};
use cursor::texts::is_closed;
use rules::state::{Kind, State};
use rules::steps::{
    Moved, bin, channel, continue_event, end_event, histogram, hit_count, last_cell, sample,
    start_event, text, time_bin,
};

// A word of some bytes, at an index before their word `last`, up to which they are whole.
#[derive(Clone, Copy)]
struct Here<'a> {
    s: &'a [u8],
    last: usize,
    at: usize,
    w: u16,
    ghost bytes: { Bytes s.now },
    ghost whole: { 2 * last ≤ length s.now },
    ghost before: { at < last },
    ghost told: { w ≡ word_at s.now at },
}

// A Bin's number in its word, its count in the two words after it.
fn bin_at(here: Here, st: State) -> Result<Moved, Fault>
    requires { book.bin ≡ book.class_of here.w }
    ensures { (card : ℕ) → view_step result ≡ step_of card here.entry.s.now here.entry.last here.entry.at (view_state st) }
{
    let Here { s, last, at, w } = here;
    if last < at + 3 {
        return Err(Fault::Cut);
    }
    let count = long(s, at + 1);
    let x = Bin {
        bin: Bin::of_word(w),
        count,
    };
    bin(st, x, at + 3)
}

// A Start event's type in its word, timestamp and number in the five words after it.
fn start_at(here: Here, st: State) -> Result<Moved, Fault>
    requires { book.start_event ≡ book.class_of here.w }
    ensures { (card : ℕ) → view_step result ≡ step_of card here.entry.s.now here.entry.last here.entry.at (view_state st) }
{
    let Here { s, last, at, w } = here;
    if last < at + 6 {
        return Err(Fault::Cut);
    }
    let timestamp = time(s, at + 1);
    let number = long(s, at + 4);
    let x = StartEvent {
        kind: StartEvent::of_word(w),
        timestamp,
        number,
    };
    start_event(at, st, x, at + 6)
}

// A Continue event's number in the two words after its word; no rule of the frame looks at it.
fn continue_at(here: Here, st: State) -> Result<Moved, Fault>
    requires { book.continue_event ≡ book.class_of here.w }
    ensures { (card : ℕ) → view_step result ≡ step_of card here.entry.s.now here.entry.last here.entry.at (view_state st) }
{
    let Here { s, last, at, w } = here;
    if last < at + 3 {
        return Err(Fault::Cut);
    }
    continue_event(st, ContinueEvent::low_bits(w), at + 3)
}

// An End event's size in the two words after its word.
fn end_at(here: Here, st: State) -> Result<Moved, Fault>
    requires { book.end_event ≡ book.class_of here.w }
    ensures { (card : ℕ) → view_step result ≡ step_of card here.entry.s.now here.entry.last here.entry.at (view_state st) }
{
    let Here { s, last, at, w } = here;
    if last < at + 3 {
        return Err(Fault::Cut);
    }
    let size = long(s, at + 1);
    end_event(at, st, EndEvent { size }, EndEvent::low_bits(w), at + 3)
}

// A text's bytes in the words after its word.
fn text_at(here: Here, st: State) -> Result<Moved, Fault>
    requires { book.text ≡ book.class_of here.w }
    ensures { (card : ℕ) → view_step result ≡ step_of card here.entry.s.now here.entry.last here.entry.at (view_state st) }
{
    let Here { s, last, at, w } = here;
    let more = text_words(w) as usize;
    let next = at + 1 + more;
    if last < next {
        return Err(Fault::Cut);
    }
    let from = 2 * (at + 1);
    let to = 2 * next;
    let closed = is_closed(&s[from..to], w);
    text(st, closed, next)
}

// One turn at the word `at`, of the words before word `last`, by its class on the book's page. It has one caller, the loop below: with a second one
// the compiler no longer inlines it.
fn step(
    s: &[u8],
    rows: &[u8; 256],
    last: usize,
    at: usize,
    card: u16,
    st: State,
) -> Result<Moved, Fault>
    requires { (at < last) × (2 * last ≤ length s.now) × (rows.now ≡ book_page) }
    ensures { view_step result ≡ step_of card s.now last at (view_state st) }
{
    let w = word(s, at);
    let here = Here { s, last, at, w };
    let class = classify_on(rows, w);
    match class {
        Class::Channel => channel(card, st, Channel::of_word(w), at + 1),
        Class::Histogram => histogram(card, st, Histogram::of_word(w), at + 1),
        Class::HitCount => hit_count(card, st, HitCount::of_word(w), at + 1),
        Class::Sample => sample(st, Sample::of_word(w), at + 1),
        Class::Bin => bin_at(here, st),
        Class::LastCell => last_cell(st, LastCell::of_word(w), at + 1),
        Class::TimeBin => time_bin(st, TimeBin::of_word(w), at + 1),
        Class::Text => text_at(here, st),
        Class::StartEvent => start_at(here, st),
        Class::EndEvent => end_at(here, st),
        Class::ContinueEvent => continue_at(here, st),
        Class::Unassigned => Err(Fault::Class),
        Class::DataFrame | Class::MonitorFrame | Class::CommandFrame | Class::FrameEnd => {
            Err(Fault::Place)
        }
    }
}

// How many items there are, the word index of the item asked for, and the state behind them all.
#[derive(Clone, Copy, Debug, PartialEq, Eq)]
pub struct Summary {
    pub count: usize,
    pub index: usize,
    pub state: State,
}

// The index noted so far, with item n at hand or not. As a function it leaves the loop's proof an equation, and no join of branches.
fn noted(count: usize, n: usize, at: usize, index: usize) -> usize
    ensures { result ≡ pick (eqb count n) at index }
{
    if count == n {
        return at;
    }
    index
}

// Item by item from the left, over the words before word `last`, and many at once where they repeat; the index of item n is noted on the
// way. The page is taken once and lent to each turn. The index jumps by an item's words, so no `for` counts it.
pub(crate) fn walk(
    s: &[u8],
    last: usize,
    kind: Kind,
    card: u16,
    n: usize,
) -> Result<Summary, Refusal>
    requires { 2 * last ≤ length s.now }
    ensures { view_walk result ≡ summed (view_kind kind) card s.now last n }
{
    let rows = page();
    let mut at: usize = 3;
    let mut count: usize = 0;
    let mut index: usize = 0;
    let mut st = State::start(kind);
    while at < last {
        index = noted(count, n, at, index);
        let turn = match step(s, &rows, last, at, card, st) {
            Ok(turn) => turn,
            Err(fault) => return Err(fault.at(at)),
        };
        count += 1;
        let after = turn.state;
        let run = repeats_at(s, last, card, turn.next, after, ahead(count, n));
        st = State {
            next: run.next,
            ..after
        };
        at = run.at;
        count += run.count;
    }
    Ok(Summary {
        count,
        index,
        state: st,
    })
}
