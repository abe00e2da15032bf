// The event that is open at the end of a frame that links.
ghost use Rattle.std.specs.Prelude.{◌≡◌, true};
ghost use Rattle.std.proofs.Math.Option.{some};
ghost use Rattle.rules.specs.Views.{view_marks, view_state};
ghost use Rattle.runs.specs.Marked.{sized_by, open_by};
ghost use Rattle.assembler.specs.Views.{view_open, view_current};

use crate::OpenEvent;
use crate::part::Part;

impl OpenEvent {
    // This event, with one part more where it did not end here.
    fn grown(self, part: Part<'_>) -> Option<OpenEvent>
        requires { sized_by (some (view_open self)) part.bytes.now (view_marks part.frame.state.marks) ≡ true }
        ensures { view_current result ≡ open_by (some (view_open self)) part.entry.bytes.now (view_state part.entry.frame.state) }
    {
        if part.frame.state.marks.lead != 0 {
            return part.begun();
        }
        Some(OpenEvent {
            number: self.number,
            size: self.size + part.size() as u32,
            key: self.key.max(part.frame.state.key),
        })
    }
}

pub(crate) fn open_after(event: Option<OpenEvent>, part: Part<'_>) -> Option<OpenEvent>
    requires { sized_by (view_current event) part.bytes.now (view_marks part.frame.state.marks) ≡ true }
    ensures { view_current result ≡ open_by (view_current event) part.entry.bytes.now (view_state part.entry.frame.state) }
{
    match event {
        None => part.begun(),
        Some(o) => o.grown(part),
    }
}
