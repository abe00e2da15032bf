// A record is opened: a frame with no history.
ghost use Rattle.std.specs.Prelude.{◌≡◌, ◌++◌, ◌+◌, ◌≤◌, length};
ghost use Rattle.std.proofs.lemmas.List.Edits.{sets};
ghost use Rattle.ledger.specs.Records.{header};
ghost use Rattle.ledger.specs.VersionTwo.{version_two};
ghost use Rattle.editor.specs.Views.{view_done};
ghost use Rattle.editor.specs.Promises.{Opened};

use crate::stores::put_words;
use book::refusal::{Fault, Refusal};
use book::words::copy;
use frame::reading::read;
use records::answers::Record;

// The header of a record that has no entries, of a frame of `n` bytes.
fn put_header(buf: &mut [u8], n: usize)
    requires { (16 ≤ length buf.old) × (n ≤ 8192) }
    ensures { buf.new ≡ sets buf.old 0 (header version_two n 0) }
{
    let start = Record::HEADER as u16;
    let w = n as u16;
    put_words(
        buf,
        0,
        &[
            Record::VERSION,
            Record::FRAMES,
            start,
            w,
            start + w,
            0,
            start + w,
            0,
        ],
    );
}

// The record of an accepted frame: header and frame.
fn write_open(buf: &mut [u8], frame: &[u8])
    requires { (16 + length frame.now ≤ length buf.old) × (length frame.now ≤ 8192) }
    ensures { buf.new ≡ sets buf.old 0 (header version_two (length frame.now) 0 ++ frame.now) }
{
    let start = Record::HEADER;
    let end = start + frame.len();
    put_header(buf, frame.len());
    copy(frame, &mut buf[start..end]);
}

// Opens a record of the frame, with no history, at the start of the buffer. Refuses as reading the frame does, then by 12 where the buffer
// is under 16 bytes and the frame. Accepted, it has written header and frame and nothing beyond; refused, the buffer is as found.
pub fn open(buf: &mut [u8], frame: &[u8]) -> Result<(), Refusal>
    ensures { Opened frame.now buf.old (view_done result) buf.new }
{
    read(frame)?;
    if buf.len() < Record::HEADER + frame.len() {
        return Err(Fault::Room.into());
    }
    write_open(buf, frame);
    Ok(())
}
