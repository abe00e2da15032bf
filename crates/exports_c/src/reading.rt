// The class of a word, and the questions on a frame and its items.
ghost use Rattle.exports.specs.Promises.{ClassNumbered, FrameTold, ItemTold, TextPart};

use exports::answers::{PlaneFound, PlaneFrame, PlaneText};
use exports::reading;

#[unsafe(no_mangle)]
pub extern "C" fn plane_classify(word: u16) -> u32
    ensures { ClassNumbered word result }
{
    reading::plane_classify(word)
}

#[unsafe(no_mangle)]
pub extern "C" fn plane_read(frame: &[u8]) -> PlaneFrame
    ensures { FrameTold frame.now result }
{
    reading::plane_read(frame)
}

#[unsafe(no_mangle)]
pub extern "C" fn plane_item(frame: &[u8], n: usize) -> PlaneFound
    ensures { ItemTold frame.now n result }
{
    reading::plane_item(frame, n)
}

#[unsafe(no_mangle)]
pub extern "C" fn plane_text(frame: &[u8], n: usize) -> PlaneText
    ensures { TextPart frame.now n result }
{
    reading::plane_text(frame, n)
}
