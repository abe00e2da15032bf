// The assembler of events over several frames.
ghost use Rattle.exports.specs.Promises.{AssemblerMade, TakeTold, GivenUpTold};

use exports::answers::{PlaneAssembler, PlaneTaken};
use exports::assembling;

#[unsafe(no_mangle)]
pub extern "C" fn plane_new_assembler(card: u16) -> PlaneAssembler
    ensures { AssemblerMade card result }
{
    assembling::plane_new_assembler(card)
}

#[unsafe(no_mangle)]
pub extern "C" fn plane_take(assembler: PlaneAssembler, frame: &[u8]) -> PlaneTaken
    ensures { TakeTold assembler frame.now result }
{
    assembling::plane_take(assembler, frame)
}

#[unsafe(no_mangle)]
pub extern "C" fn plane_give_up(assembler: PlaneAssembler) -> PlaneAssembler
    ensures { GivenUpTold assembler result }
{
    assembling::plane_give_up(assembler)
}
