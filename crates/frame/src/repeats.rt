// Repeats: items of one manner, one behind the other. Most words of a frame stand in them, so the walk takes them at once, behind an item that
// leaves the frame where they stand. Each of them is one that `step` would take, and they end before any other. By `step`
// alone each word would pay for its class, its rule and a new state; here it pays for a comparison or two (bench/README.md).
ghost use Rattle.std.specs.Prelude.{◌≡◌, ℕ, ◌+◌, ◌-◌, ◌*◌, ◌/◌, ◌%◌, ◌≤◌, ◌<◌, max, min, length, eqb, false, ◌&&◌};
ghost use Rattle.format.specs.Rules.{inside, after_sample, headed};
ghost use Rattle.format.specs.Steps.{Marks};
ghost use Rattle.rules.specs.Views.{view_state};
ghost use Rattle.frame.specs.Repeats.{Turns, Repeated};

use crate::head::MOST;
use crate::inside::{long, word};
use book::class::Class;
use book::items::{Bin, HitCount, TimeBin};
use rules::state::{Mode, State};

// A channel's samples have times below this.
const TIMES: u32 = TimeBin::LAST as u32 + 1;

// The words of a Bin.
const BIN_WORDS: usize = 3;

// The most repeats, where no item is asked for: a frame has no more words.
const MANY: usize = MOST / 2;

// Some repeats: the index behind them, how many they are, and the state's `next` behind them; nothing else of the state is changed by them.
#[derive(Clone, Copy)]
pub(crate) struct Repeats {
    pub at: usize,
    pub count: usize,
    pub next: u32,
}

// How many items may be passed before item n, with `count` behind us: that one is to be noted.
pub(crate) fn ahead(count: usize, n: usize) -> usize
    ensures { ((i : ℕ) → i < result → eqb (count + i) n ≡ false) × (count ≤ n → result ≡ n - count) × (n < count → result ≡ 4096) }
{
    n.checked_sub(count).unwrap_or(MANY)
}

// The times that are left from this one on.
fn times_left(time: u32) -> usize
    ensures { result ≡ 512 - time }
{
    TIMES.saturating_sub(time) as usize
}

// A Sample's prefix, of four bits.
const SAMPLE: u32 = Class::SAMPLE as u32 >> 12;

// Two words, the first one low, are both Samples.
fn two_samples(x: u32) -> bool
    ensures { result ≡ (eqb (x / 4096 % 16) 3 && eqb (x / 268435456) 3) }
{
    (x / 4096 % 16 == SAMPLE) & (x / 268435456 == SAMPLE)
}

// Behind the Samples from here on, taken two at a time: it is half the work, since the compiler makes one load of the two words. They are split again
// by division, which the prover's arithmetic takes apart, and not by masks. The index jumps here, as in `past_bins` and the walk, so no `for` counts
// it; `long` in place of the two words made a frame of Samples dearer by a quarter.
// Here and below the words stay three arguments: in a struct a clause names each by `.entry`, and these speak of them up to a dozen times.
fn past_pairs(s: &[u8], at: usize, stop: usize) -> usize
    requires { (at ≤ stop) × (2 * stop ≤ length s.now) }
    ensures { (at ≤ result) × (result ≤ stop) × ((card last key next : ℕ) (marks : Marks) → stop ≤ last → (at < stop → next + (stop - at) ≤ 512) → Turns card s.now last (result - at) after_sample key next marks at (next + (result - at)) result) }
{
    let mut i = at;
    while i + 1 < stop {
        let low = word(s, i) as u32;
        let high = word(s, i + 1) as u32;
        if two_samples(low + 65536 * high) {
            i += 2;
        } else {
            return i;
        }
    }
    i
}

// Behind the Samples from here on: pairs, and one more.
fn past_samples(s: &[u8], at: usize, stop: usize) -> usize
    requires { (at ≤ stop) × (2 * stop ≤ length s.now) }
    ensures { (at ≤ result) × (result ≤ stop) × ((card last key next : ℕ) (marks : Marks) → stop ≤ last → (at < stop → next + (stop - at) ≤ 512) → Turns card s.now last (result - at) after_sample key next marks at (next + (result - at)) result) }
{
    let end = past_pairs(s, at, stop);
    if stop <= end {
        return end;
    }
    let w = word(s, end);
    if Class::SAMPLE <= w && w < Class::HIT_COUNT {
        end + 1
    } else {
        end
    }
}

// Behind the Hit counts from here on that are right in a frame of the card.
fn past_hits(s: &[u8], at: usize, stop: usize, card: u16) -> usize
    requires { (at ≤ stop) × (2 * stop ≤ length s.now) }
    ensures { (at ≤ result) × (result ≤ stop) × ((last key next : ℕ) (marks : Marks) → stop ≤ last → Turns card s.now last (result - at) inside key next marks at next result) }
{
    for i in at..stop {
        let w = word(s, i);
        if w < Class::HIT_COUNT || Class::HISTOGRAM <= w || !HitCount::of_word(w).valid(card) {
            return i;
        }
    }
    stop
}

// The word before the first one that a Bin may have.
const BEFORE_BINS: u64 = Class::BIN as u64 - 1;

// The index behind some Bins, and the word of the last.
#[derive(Clone, Copy)]
struct Binned {
    at: usize,
    word: u64,
}

// Behind the Bins from here on that have a count and rise from behind the word `past`: a Bin's word rises with its number. There is room for
// whole Bins before `stop`.
fn past_bins(s: &[u8], at: usize, stop: usize, past: u64) -> Binned
    requires { (at ≤ stop) × ((stop - at) % 3 ≡ 0) × (2 * stop ≤ length s.now) × (8191 ≤ past) }
    ensures { (at ≤ result.at) × (result.at ≤ stop) × (8191 ≤ result.word) × (result.word ≤ max past 12287) × ((card last key : ℕ) (marks : Marks) → stop ≤ last → 2 * last ≤ length s.now → Turns card s.now last ((result.at - at) / 3) headed key (past - 8191) marks at (result.word - 8191) result.at) }
{
    let mut i = at;
    let mut latest = past;
    while i < stop {
        let w = word(s, i) as u64;
        if w <= latest || Class::SAMPLE as u64 <= w || long(s, i + 1) < Bin::LEAST_COUNT {
            return Binned {
                at: i,
                word: latest,
            };
        }
        latest = w;
        i += BIN_WORDS;
    }
    Binned {
        at: i,
        word: latest,
    }
}

fn repeated_samples(s: &[u8], last: usize, at: usize, next: u32, most: usize) -> Repeats
    requires { (at ≤ last) × (2 * last ≤ length s.now) }
    ensures { (card key : ℕ) (marks : Marks) → Repeated card s.now last at after_sample key next marks most result.at result.count result.next }
{
    let room = most.min(times_left(next)).min(last - at);
    let end = past_samples(s, at, at + room);
    let count = end - at;
    let time = next + count as u32;
    Repeats {
        at: end,
        count,
        next: time,
    }
}

fn repeated_hits(s: &[u8], last: usize, card: u16, at: usize, next: u32, most: usize) -> Repeats
    requires { (at ≤ last) × (2 * last ≤ length s.now) }
    ensures { (key : ℕ) (marks : Marks) → Repeated card s.now last at inside key next marks most result.at result.count result.next }
{
    let room = most.min(last - at);
    let end = past_hits(s, at, at + room, card);
    let count = end - at;
    Repeats {
        at: end,
        count,
        next,
    }
}

fn repeated_bins(s: &[u8], last: usize, at: usize, next: u32, most: usize) -> Repeats
    requires { (at ≤ last) × (2 * last ≤ length s.now) }
    ensures { (card key : ℕ) (marks : Marks) → Repeated card s.now last at headed key next marks most result.at result.count result.next }
{
    let room = most.min((last - at) / BIN_WORDS);
    let past = BEFORE_BINS + next as u64;
    let binned = past_bins(s, at, at + BIN_WORDS * room, past);
    let count = (binned.at - at) / BIN_WORDS;
    let number = (binned.word - BEFORE_BINS) as u32;
    Repeats {
        at: binned.at,
        count,
        next: number,
    }
}

// The repeats, at most so many, that begin at the word `at`, of the words before word `last`.
pub(crate) fn repeats_at(
    s: &[u8],
    last: usize,
    card: u16,
    at: usize,
    st: State,
    most: usize,
) -> Repeats
    requires { (at ≤ last) × (2 * last ≤ length s.now) }
    ensures { Repeated card s.now last at (view_state st).mode st.key st.next (view_state st).marks most result.at result.count result.next }
{
    match st.mode {
        Mode::AfterSample => repeated_samples(s, last, at, st.next, most),
        Mode::Inside => repeated_hits(s, last, card, at, st.next, most),
        Mode::Headed => repeated_bins(s, last, at, st.next, most),
        _ => Repeats {
            at,
            count: 0,
            next: st.next,
        },
    }
}
