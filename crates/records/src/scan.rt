// An accepted frame scanned along the cursor, with no rules again: the header of every item, and what stands at a word.
ghost use Rattle.std.specs.Prelude.{◌≡◌, ℕ, ◌+◌, ◌*◌, ◌≤◌, ◌<◌, length, get_or};
ghost use Rattle.std.proofs.Math.Option.{some};
ghost use Rattle.format.specs.Words.{word_at, long_at};
ghost use Rattle.format.specs.Spots as spots;
ghost use Rattle.format.specs.Cursor.{standing_at, shown_by};
ghost use Rattle.format.specs.Scans.{head_by, header_at, Noted};
ghost use Rattle.cursor.specs.Views.{view_standing};
ghost use Rattle.book.specs.Views.{view_item};
ghost use Rattle.ledger.specs.Frames.{Accepted};
ghost use Rattle.ledger.specs.PlaneFrames.{plane_frames};
ghost use Rattle.records.specs.Views.{view_header, view_spot};
ghost use Rattle.records.specs.Undoing.{Heads};

use crate::answers::{Header, Spot, SpotKind};
use book::class::Class;
use book::items::{Bin, Item, Sample};
use cursor::{FoundItem, item_at};

// The index of a frame's first item.
const FIRST: usize = 3;

// Taken as the header's word before any header: no item stands there.
const UNHEADED: u16 = 1;

// Noted where no item begins.
pub(crate) const NONE: u16 = 0;

// The word of the header that the next item stands under: a header's own, after any other item still `head`.
fn head_behind(item: Item, at: u16, head: u16) -> u16
    ensures { result ≡ head_by head at (view_item item) }
{
    if matches!(item, Item::Channel(_) | Item::Histogram(_)) {
        return at;
    }
    head
}

// What a header says; zeros of any other item.
fn header_of(item: Item) -> Header
    ensures { view_header result ≡ spots.under spots.no_header (view_item item) }
{
    match item {
        Item::Channel(x) => x.into(),
        Item::Histogram(x) => x.into(),
        _ => Header::default(),
    }
}

// The header at the word noted; zeros where none stands.
pub(crate) fn header_at(f: &[u8], head: u16) -> Header
    ensures { view_header result ≡ header_at f.now head }
{
    let Some(found) = item_at(f, head as usize) else {
        return Header::default();
    };
    header_of(found.item)
}

// An item under a header as a spot: anything but a Sample or Bin is nothing.
pub(crate) fn spot_of(item: Item, header: Header) -> Option<Spot>
    ensures { view_spot result ≡ spots.spot_of (view_header header) (view_item item) }
{
    match item {
        Item::Sample(x) => Some(Spot {
            kind: SpotKind::Sample,
            value: x.value as u32,
            header,
        }),
        Item::Bin(x) => Some(Spot {
            kind: SpotKind::Bin,
            value: x.count,
            header,
        }),
        _ => None,
    }
}

// The word at index i, which is there: so there is no second test here. frame/src/inside.rt and questions/src/scan.rt have the same: it stays in its
// crate, since no public function has a `requires`.
pub(crate) fn word_in(s: &[u8], i: usize) -> u16
    requires { 2 * i + 1 < length s.now }
    ensures { result ≡ word_at s.now i }
{
    u16::from_le_bytes([s[2 * i], s[2 * i + 1]])
}

// The number of 32 bits whose words at i and i + 1 are there.
pub(crate) fn long_in(s: &[u8], i: usize) -> u32
    requires { 2 * i + 3 < length s.now }
    ensures { result ≡ long_at s.now i }
{
    let low = word_in(s, i) as u32;
    let high = word_in(s, i + 1) as u32;
    low + 65536 * high
}

// What stands at word w of an accepted frame. Here and in `note_heads` the index jumps by an item's length, so that the loop goes over no range.
pub(crate) fn spot_in(f: &[u8], w: usize) -> Option<Spot>
    requires { Accepted plane_frames f.now }
    ensures { view_spot result ≡ spots.spot f.now w }
{
    let mut at = FIRST;
    let mut head = UNHEADED;
    while at <= w {
        let found = item_at(f, at)?;
        if at == w {
            return spot_of(found.item, header_at(f, head));
        }
        head = head_behind(found.item, at as u16, head);
        at = found.next;
    }
    None
}

// The answer that an item stands there, and where the next one begins.
fn stands(item: Item, next: usize) -> Option<FoundItem>
    ensures { view_standing result ≡ some (record { item = view_item item; next = next }) }
{
    Some(FoundItem { item, next })
}

// The item answer at a word where an item begins. A Sample or a Bin is told by the range of its word, a case of the cursor's law: entries are of
// little else, and are judged one by one.
pub(crate) fn item_noted(f: &[u8], at: usize) -> Option<FoundItem>
    requires { Noted f.now at }
    ensures { view_standing result ≡ shown_by (standing_at f.now at) }
{
    let w = word_in(f, at);
    if (Class::SAMPLE <= w) & (w < Class::HIT_COUNT) {
        return stands(Item::Sample(Sample::of_word(w)), at + 1);
    }
    if (Class::BIN <= w) & (w < Class::SAMPLE) {
        let count = long_in(f, at + 1);
        let x = Bin {
            bin: Bin::of_word(w),
            count,
        };
        return stands(Item::Bin(x), at + 3);
    }
    item_at(f, at)
}

// Notes in a map of zeros, for each word of an accepted frame where an item begins, the word of the header that it stands under. Most items are
// told by the range of their word, the commonest first; the end word is below all of these ranges, so that they need not ask whether it is
// reached; the cursor tells it, and the others below them: texts, and what begins an event, goes on with one or ends it.
pub(crate) fn note_heads(f: &[u8], map: &mut [u16])
    requires { Accepted plane_frames f.now × (4096 ≤ length map.old) × ((i : ℕ) → get_or map.old i 0 ≡ 0) }
    ensures { Heads f.now map.new }
{
    let mut at = FIRST;
    let mut head = UNHEADED;
    loop {
        let w = word_in(f, at);
        if (Class::SAMPLE <= w) & (w < Class::HISTOGRAM) {
            map[at] = head;
            at += 1;
            continue;
        }
        if (Class::BIN <= w) & (w < Class::SAMPLE) {
            map[at] = head;
            at += 3;
            continue;
        }
        if Class::HISTOGRAM <= w {
            head = at as u16;
            map[at] = head;
            at += 1;
            continue;
        }
        if Class::TIME_BIN <= w {
            map[at] = head;
            at += 1;
            continue;
        }
        let Some(found) = item_at(f, at) else {
            return;
        };
        head = head_behind(found.item, at as u16, head);
        map[at] = head;
        at = found.next;
    }
}
