// Whether a data frame of the assembler's card links to what is open.
ghost use Rattle.std.specs.Prelude.{◌≡◌, ◌+◌, ◌*◌, ◌≤◌, length};
ghost use Rattle.rules.specs.Views.{view_marks};
ghost use Rattle.runs.specs.Marked.{rises_by, size_by, goes_on_by, linked_by};
ghost use Rattle.assembler.specs.Views.{view_open, view_current};

use crate::OpenEvent;
use crate::part::Part;
use book::words::long;

// The part's headers rise, so that its first one tells of all; `first` is one more than its key, 0 where it has none.
fn rises(key: u32, first: u32) -> bool
    ensures { result ≡ rises_by key first }
{
    (first == 0) | (key < first)
}

// The size that its End event gives, at word `lead`, counts all parts; and an event that goes on is not past 32 bits.
fn sized(size: u32, s: &[u8], lead: usize) -> bool
    requires { (8 ≤ length s.now) × (length s.now ≤ 8192) × (2 * lead + 2 ≤ length s.now) }
    ensures { result ≡ size_by size s.now lead }
{
    if lead == 0 {
        let part = s.len() - OpenEvent::NO_ITEMS;
        return (size as u64 + part as u64) < OpenEvent::PAST;
    }
    let told = long(s, lead + 1);
    told as u64 == size as u64 + 2 * (lead as u64)
}

impl OpenEvent {
    // The frame goes on with this event.
    fn goes_on(self, lost: u8, part: Part<'_>) -> bool
        ensures { result ≡ goes_on_by (view_open self) lost part.entry.bytes.now (view_marks part.entry.frame.state.marks) }
    {
        let marks = part.frame.state.marks;
        let rising = rises(self.key, marks.first);
        let sizes = sized(self.size, part.bytes, marks.lead);
        (lost == 0) & part.continues() & (self.number == long(part.bytes, 4)) & rising & sizes
    }
}

pub(crate) fn linked(event: Option<OpenEvent>, lost: u8, part: Part<'_>) -> bool
    ensures { result ≡ linked_by (view_current event) lost part.entry.bytes.now (view_marks part.entry.frame.state.marks) }
{
    match event {
        None => !part.continues(),
        Some(o) => o.goes_on(lost, part),
    }
}
