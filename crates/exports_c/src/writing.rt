// The writer's calls on a partial frame in a lent buffer.
ghost use Rattle.exports.specs.Promises.{Begun, Added, AddedText, Closed};

use exports::answers::{PlaneItem, PlaneWritten};
use exports::writing;

#[unsafe(no_mangle)]
pub extern "C" fn plane_begin(
    buffer: &mut [u8],
    kind: u16,
    card: u16,
    sequence: u16,
) -> PlaneWritten
    ensures { Begun buffer.old kind card sequence result buffer.new }
{
    writing::plane_begin(buffer, kind, card, sequence)
}

#[unsafe(no_mangle)]
pub extern "C" fn plane_add(buffer: &mut [u8], length: usize, item: PlaneItem) -> PlaneWritten
    ensures { Added buffer.old length item result buffer.new }
{
    writing::plane_add(buffer, length, item)
}

#[unsafe(no_mangle)]
pub extern "C" fn plane_add_text(buffer: &mut [u8], length: usize, text: &[u8]) -> PlaneWritten
    ensures { AddedText buffer.old length text.now result buffer.new }
{
    writing::plane_add_text(buffer, length, text)
}

#[unsafe(no_mangle)]
pub extern "C" fn plane_close(buffer: &mut [u8], length: usize) -> PlaneWritten
    ensures { Closed buffer.old length result buffer.new }
{
    writing::plane_close(buffer, length)
}
