// Many corrections in one call (document 02, request 2): a lent list of them, applied in order by the single edit, up to the first that is refused.
#![tactic(auto)]

ghost use Rattle.std.specs.Prelude.{◌≡◌, map, Err};
ghost use Rattle.editor.specs.Views.{asked, view_done};
ghost use Rattle.corrections.specs.Lists.{at_position};
ghost use Rattle.corrections.specs.Views.{view_corrected};
ghost use Rattle.corrections.specs.Promises.{CorrectedAll};

use book::refusal::Refusal;
use editor::editing::{Correction, edit};

// The correction at this position, from 0, was refused; those before it stand.
#[derive(Clone, Copy, Debug, PartialEq, Eq)]
pub struct Stopped {
    pub position: usize,
    pub refusal: Refusal,
}

impl Stopped {
    // By the refusal of the correction at a position: what that edit answers to the list.
    fn at(position: usize, refusal: Refusal) -> Stopped
        ensures { view_corrected (Err result) ≡ at_position position (view_done (Err refusal)) }
    {
        Stopped { position, refusal }
    }
}

// Makes the corrections of a list in order, each as `edit` does on what the one before it left, and stops at the first that is refused: it answers
// that position and that refusal. The corrections before it stand, the refused one and those behind it have changed nothing. An empty list is
// accepted, and changes nothing, whatever the buffer holds.
pub fn edit_all(buf: &mut [u8], list: &[Correction]) -> Result<(), Stopped>
    ensures { CorrectedAll buf.old (map asked list.now) (view_corrected result) buf.new }
{
    for (position, c) in list.iter().enumerate() {
        edit(buf, *c).map_err(|refusal| Stopped::at(position, refusal))?;
    }
    Ok(())
}
