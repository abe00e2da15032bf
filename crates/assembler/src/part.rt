// A frame that is taken, and what stands in it of events.
ghost use Rattle.std.specs.Prelude.{◌≡◌};
ghost use Rattle.format.specs.Steps.{open_in};
ghost use Rattle.rules.specs.Views.{view_mode, view_marks, view_state};
ghost use Rattle.runs.specs.Marked.{continues_at, item_bytes, begun_by, Reach};
ghost use Rattle.assembler.specs.Views.{view_current};

use crate::OpenEvent;
use book::items::ContinueEvent;
use book::words::{long, word};
use frame::reading::Frame;
use rules::state::Mode;

// The bytes, and what reading them told: the marks of its state lie in the bytes.
#[derive(Clone, Copy)]
pub(crate) struct Part<'a> {
    pub bytes: &'a [u8],
    pub frame: Frame,
    ghost reach: { Reach bytes.now (view_marks frame.state.marks) },
}

// An event is open here.
fn is_open(mode: Mode) -> bool
    ensures { result ≡ open_in (view_mode mode) }
{
    matches!(
        mode,
        Mode::Inside | Mode::AfterChannel | Mode::AfterTime | Mode::AfterSample
    )
}

impl Part<'_> {
    // The first item is a Continue event.
    pub(crate) fn continues(self) -> bool
        ensures { result ≡ continues_at self.entry.bytes.now }
    {
        word(self.bytes, 3) == ContinueEvent::WORD
    }

    // How many bytes its items take.
    pub(crate) fn size(self) -> usize
        ensures { result ≡ item_bytes self.entry.bytes.now }
    {
        self.bytes.len() - OpenEvent::NO_ITEMS
    }

    // The event that began in the frame and is open, that of the latest Start event: its number is at the fifth word of that, and it reaches to the last
    // word.
    pub(crate) fn begun(self) -> Option<OpenEvent>
        ensures { view_current result ≡ begun_by self.entry.bytes.now (view_state self.entry.frame.state) }
    {
        let state = self.frame.state;
        let opener = state.marks.opener;
        if opener == 0 {
            return None;
        }
        if !is_open(state.mode) {
            return None;
        }
        let size = self.bytes.len() - 2 - 2 * opener;
        Some(OpenEvent {
            number: long(self.bytes, opener + 4),
            size: size as u32,
            key: state.key,
        })
    }
}
