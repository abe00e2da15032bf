// How a test that does not hold is answered.
ghost use Rattle.std.specs.Prelude.{◌≡◌};
ghost use Rattle.format.specs.Answers.{need};
ghost use Rattle.book.specs.Refusals.{number_of};
ghost use Rattle.editor.specs.Views.{view_done};

use book::refusal::{Fault, Refusal};

// Refused for the fault, at place 0, unless the test holds.
pub(crate) fn need(holds: bool, fault: Fault) -> Result<(), Refusal>
    ensures { view_done result ≡ need holds (number_of fault) 0 }
{
    if holds { Ok(()) } else { Err(fault.into()) }
}
