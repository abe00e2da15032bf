// The verdict on a frame, and the item at an ordinal.
ghost use Rattle.std.specs.Prelude.{◌≡◌};
ghost use Rattle.format.specs.Steps.{index_of};
ghost use Rattle.rules.specs.Views.{view_kind};
ghost use Rattle.frame.specs.Views.{view_summary, view_indexed, ending_of};
ghost use Rattle.frame.specs.Promises.{ReadAs};

use crate::head::{head_fault, kind_of};
use crate::walk::{Summary, walk};
use book::items::LAST_CARD;
use book::refusal::{Fault, Refusal};
use book::words::word;
use rules::state::{Kind, State, may_end};

// An accepted frame: what its first words say, how many items it has, and the state behind them.
#[derive(Clone, Copy, Debug, PartialEq, Eq)]
pub struct Frame {
    pub kind: Kind,
    pub card: u16,
    pub sequence: u16,
    pub items: usize,
    pub state: State,
}

// An accepted frame, and the word index of the item asked for (0 where there is none).
#[derive(Clone, Copy, Debug, PartialEq, Eq)]
pub(crate) struct Indexed {
    pub frame: Frame,
    pub index: usize,
}

// The verdict where the items were walked through: 11 after a Channel or Time bin.
fn ending(s: &[u8], last: usize, kind: Kind, card: u16, x: Summary) -> Result<Indexed, Refusal>
    ensures { view_indexed result ≡ ending_of s.now last (view_kind kind) card (view_summary x) }
{
    let state = x.state;
    if !may_end(state.mode) {
        return Err(Fault::Open.at(last));
    }
    let frame = Frame {
        kind,
        card,
        sequence: word(s, 2),
        items: x.count,
        state,
    };
    Ok(Indexed {
        frame,
        index: x.index,
    })
}

// The verdict on a frame, and where item n stands: tested 1 to 5 in order, then item by item, then 11.
pub(crate) fn judge(s: &[u8], n: usize) -> Result<Indexed, Refusal>
    ensures { view_indexed result ≡ index_of s.now n }
{
    head_fault(s)?;
    let w = word(s, 0);
    let last = s.len() / 2 - 1;
    let kind = kind_of(w);
    let card = w & LAST_CARD;
    let walked = walk(s, last, kind, card, n)?;
    ending(s, last, kind, card, walked)
}

// Whether the bytes are a frame, and of what kind, card, sequence word and number of items. Refuses 1 to 5 in order at 0, then the first
// faulty item by its first of 6 to 10 at its word index, then 11 at the last word.
pub fn read(s: &[u8]) -> Result<Frame, Refusal>
    ensures { ReadAs s.now result }
{
    // Some item is asked for, as there is one walk for every question; where it stands is not looked at.
    let judged = judge(s, 0)?;
    Ok(judged.frame)
}
