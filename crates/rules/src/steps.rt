// The rules of place, value and order at one item, by the state alone. The reader and the writer both go by these.
ghost use Rattle.std.specs.Prelude.{◌≡◌, ◌&&◌, ◌||◌, ◌+◌, ◌*◌, ◌-◌, ◌≤◌, ◌<◌, eqb};
ghost use Rattle.format.specs.Words.{pick};
ghost use Rattle.format.specs.Steps.{marked};
ghost use Rattle.rules.specs.Views.{view_state, view_step, tested};
ghost use Rattle.rules.specs.Promises.{ChannelStep, HistogramStep, HitCountStep, LastCellStep, TimeBinStep, SampleStep, BinStep, StartEventStep, ContinueEventStep, EndEventStep, TextStep};

use crate::state::{
    Marks, Mode, State, may_bin, may_continue, may_histogram, may_sample, may_stand_inside,
    may_start, may_text, may_time, paused,
};
use book::items::{
    Bin, Channel, EndEvent, Histogram, HitCount, LastCell, Sample, StartEvent, TimeBin, key,
};
use book::refusal::Fault;

// One turn: the state after the item, and the index of the next.
#[derive(Clone, Copy, Debug, PartialEq, Eq)]
pub struct Moved {
    pub state: State,
    pub next: usize,
}

// The first of place, value and order that does not hold, else the state after the item. Every class hands over its three tests and the state, worked out:
// one law then makes the turn of all eleven classes.
fn judged(place: bool, value: bool, order: bool, state: State, next: usize) -> Result<Moved, Fault>
    ensures { view_step result ≡ marked next (tested place value order (view_state state)) }
{
    if !place {
        return Err(Fault::Place);
    }
    if !value {
        return Err(Fault::Value);
    }
    if !order {
        return Err(Fault::Order);
    }
    Ok(Moved { state, next })
}

// The first of the leading part's headers, one more than its key, with a header at hand whose key is one less than n.
fn first_of(opener: usize, first: u32, n: u32) -> u32
    ensures { result ≡ pick (eqb opener 0 && eqb first 0) n first }
{
    if opener == 0 && first == 0 { n } else { first }
}

// The index of the leading part's End event, with an End event at hand.
fn lead_of(opener: usize, lead: usize, at: usize) -> usize
    ensures { result ≡ pick (eqb opener 0) at lead }
{
    if opener == 0 { at } else { lead }
}

pub fn channel(card: u16, st: State, x: Channel, next: usize) -> Result<Moved, Fault>
    ensures { ChannelStep card st x next result }
{
    let k = key(x.card, x.chip, x.channel);
    let above = k + 1;
    let m = st.marks;
    let marks = Marks {
        first: first_of(m.opener, m.first, above),
        ..m
    };
    let after = State {
        mode: Mode::AfterChannel,
        key: above,
        marks,
        ..st
    };
    judged(
        may_stand_inside(st.mode),
        x.valid(card),
        st.key <= k,
        after,
        next,
    )
}

pub fn histogram(card: u16, st: State, x: Histogram, next: usize) -> Result<Moved, Fault>
    ensures { HistogramStep card st x next result }
{
    let k = key(x.card, x.chip, x.channel);
    let above = k + 1;
    let after = State {
        mode: Mode::Headed,
        key: above,
        next: 0,
        ..st
    };
    judged(
        may_histogram(st.mode),
        x.valid(card),
        st.key <= k,
        after,
        next,
    )
}

pub fn hit_count(card: u16, st: State, x: HitCount, next: usize) -> Result<Moved, Fault>
    ensures { HitCountStep card st x next result }
{
    let after = State {
        mode: Mode::Inside,
        ..st
    };
    judged(may_stand_inside(st.mode), x.valid(card), true, after, next)
}

pub fn last_cell(st: State, x: LastCell, next: usize) -> Result<Moved, Fault>
    ensures { LastCellStep st x next result }
{
    let after = State {
        mode: Mode::Inside,
        ..st
    };
    judged(may_stand_inside(st.mode), x.valid(), true, after, next)
}

pub fn time_bin(st: State, x: TimeBin, next: usize) -> Result<Moved, Fault>
    ensures { TimeBinStep st x next result }
{
    let time = x.time as u32;
    let after = State {
        mode: Mode::AfterTime,
        next: time,
        ..st
    };
    judged(
        may_time(st.mode),
        x.valid(),
        paused(st.mode, st.next, time),
        after,
        next,
    )
}

// The time after this one; 0 where this one is past the last, which the order rule refuses: a state may hold any time, and no sum may pass its type.
fn later(time: u32) -> u32
    ensures { (time ≤ 511 → result ≡ time + 1) × (511 < time → result ≡ 0) }
{
    if time <= TimeBin::LAST as u32 {
        time + 1
    } else {
        0
    }
}

pub fn sample(st: State, x: Sample, next: usize) -> Result<Moved, Fault>
    ensures { SampleStep st x next result }
{
    let after = State {
        mode: Mode::AfterSample,
        next: later(st.next),
        ..st
    };
    judged(
        may_sample(st.mode),
        x.valid(),
        st.next <= TimeBin::LAST as u32,
        after,
        next,
    )
}

pub fn bin(st: State, x: Bin, next: usize) -> Result<Moved, Fault>
    ensures { BinStep st x next result }
{
    let number = x.bin as u32;
    let after = State {
        mode: Mode::Headed,
        next: number + 1,
        ..st
    };
    judged(may_bin(st.mode), x.valid(), st.next <= number, after, next)
}

pub fn start_event(at: usize, st: State, x: StartEvent, next: usize) -> Result<Moved, Fault>
    ensures { StartEventStep at st x next result }
{
    let marks = Marks {
        opener: at,
        ..st.marks
    };
    let after = State {
        mode: Mode::Inside,
        key: 0,
        marks,
        ..st
    };
    judged(may_start(st.mode), x.valid(), true, after, next)
}

// An event that began in another frame goes on; the content of the item's first word is zero.
pub fn continue_event(st: State, low: u16, next: usize) -> Result<Moved, Fault>
    ensures { ContinueEventStep st low next result }
{
    let after = State {
        mode: Mode::Inside,
        ..st
    };
    judged(may_continue(st.mode), low == 0, true, after, next)
}

// The words of the event so far, and three for its End event, are half of its size. The size is halved and the words are not doubled, since
// these may be any number here, and twice that could pass the largest one. The size of an event that began in another frame is not judged here.
fn sized(at: usize, opener: usize, size: u32) -> bool
    ensures { result ≡ eqb opener 0 || eqb size (2 * (at - opener) + 6) }
{
    if opener == 0 {
        return true;
    }
    let words = at.saturating_sub(opener);
    size % 2 == 0 && 6 <= size && (size / 2 - 3) as usize == words
}

// The low bits of the item's first word are a value rule of their own. The opener stays: a constant in its place made the whole walk dearer.
pub fn end_event(at: usize, st: State, x: EndEvent, low: u16, next: usize) -> Result<Moved, Fault>
    ensures { EndEventStep at st x low next result }
{
    let before = st.marks;
    let marks = Marks {
        lead: lead_of(before.opener, before.lead, at),
        ..before
    };
    let after = State {
        mode: Mode::Outside,
        marks,
        ..st
    };
    let value = (low == 0) & sized(at, before.opener, x.size);
    judged(may_stand_inside(st.mode), value, true, after, next)
}

// A text whose bytes passed their test, or did not. Key and next, which a command frame has no use for, are 0 behind each text as at the start: so no
// proof has a fact to carry about them.
pub fn text(st: State, closed: bool, next: usize) -> Result<Moved, Fault>
    ensures { TextStep st closed next result }
{
    let after = State {
        mode: Mode::Commands,
        key: 0,
        next: 0,
        ..st
    };
    judged(may_text(st.mode), closed, true, after, next)
}
