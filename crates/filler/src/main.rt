// Fills monitor frames by the writer's step, for the measurements (bench/), whose fill.c does the same by its baseline. Six bytes on standard
// input, words low byte first: how many frames, of how many bytes at most, and 1 where each is closed (else only the last is). Every frame has
// other bins and counts. Prints the last frame's length and a sum of its bytes.
#![tactic(auto)]

ghost use Rattle.std.specs.Prelude.{◌<◌};

use book::items::{Bin, Histogram, Item};
use book::refusal::Refusal;
use book::words::word;
use rules::state::{Kind, State};
use std::io::Read;
use writer::calls::{begin, close};
use writer::steps::put;

const CARD: u16 = 5;

// How many items of a frame are one histogram: its header and 455 bins.
const EACH: u32 = 456;

// More histograms than a frame holds.
const HISTOGRAMS: u32 = 11;

// The k-th item of the n-th histogram, the header being the first: chips in order, 79 channels each.
fn item_at(n: u32, k: u32, round: u16) -> Item
    requires { (n < 11) × (k < 456) }
{
    if k == 0 {
        return Item::Histogram(Histogram {
            card: CARD,
            chip: (n / 79) as u16,
            channel: (n % 79) as u16,
        });
    }
    let wide = round as u32;
    Item::Bin(Bin {
        bin: (k * 8 + wide % 8) as u16,
        count: wide * 256 + k,
    })
}

// Histograms of a monitor frame, by the step, up to the first item that does not fit; the length reached.
fn put_items(buf: &mut [u8], begun: usize, round: u16) -> usize {
    let mut reached = begun;
    let mut state = State::start(Kind::Monitor);
    for n in 0..HISTOGRAMS {
        for k in 0..EACH {
            let Ok(next) = put(buf, reached, CARD, state, item_at(n, k, round)) else {
                return reached;
            };
            reached = next.length;
            state = next.state;
        }
    }
    reached
}

// The length of a frame, which is closed where that is asked for.
fn put_frame(buf: &mut [u8], round: u16, closed: bool) -> Result<usize, Refusal> {
    let begun = begin(buf, Kind::Monitor, CARD, round % 256)?;
    let length = put_items(buf, begun, round);
    if closed {
        return close(buf, length);
    }
    Ok(length)
}

// The length of the last of some frames, which is closed, and of each where that is asked for; 0 where it is refused.
fn fill(buf: &mut [u8], rounds: u16, each: bool) -> usize {
    let mut reached = 0;
    for round in 0..rounds {
        reached = put_frame(buf, round, each).unwrap_or(0);
    }
    if each {
        return reached;
    }
    close(buf, reached).unwrap_or(0)
}

fn sum_of(s: &[u8]) -> u64 {
    s.iter().fold(0, |sum, &x| (sum % 4294967296 * 31 + x as u64) % 4294967291)
}

// Fills frames in a buffer of that length, and tells of the last.
fn run(rt: &impl Print, buf: &mut [u8], rounds: u16, each: bool) {
    let length = fill(buf, rounds, each);
    if let Some(frame) = buf.get(..length) {
        let sum = sum_of(frame);
        let _ = println!(rt; "{length} {sum}");
    }
}

fn main(rt: HostRuntime) {
    let mut buf = [0u8; 8192];
    let mut head = [0u8; 6];
    // What does not come is 0.
    let _ = rt.stdin().read_exact(&mut head);
    let rounds = word(&head, 0);
    let each = word(&head, 2) == 1;
    if let Some(part) = buf.get_mut(..word(&head, 1) as usize) {
        run(&rt, part, rounds, each);
    }
}
