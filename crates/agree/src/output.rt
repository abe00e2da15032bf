// The lines as they are gathered, and written by the half buffer.
ghost use Rattle.std.specs.Prelude.{◌≤◌};

use book::words::copy;
use std::fmt;

// Room for the lines that wait.
const ROOM: usize = 32768;

// The lines that wait to be written. An array, and no `BufWriter`: no memory is asked for, so that none can be refused.
#[derive(Drop)]
pub(crate) struct Output {
    bytes: [u8; ROOM],
    waiting: usize,
    ghost inside: { waiting ≤ 32768 },
}

impl Output {
    pub(crate) fn new() -> Output {
        Output {
            bytes: [0; ROOM],
            waiting: 0,
        }
    }

    // Writes what waits. Where that fails, the cases are read and answered all the same: the one who compares the lines sees which are missing.
    pub(crate) fn write(&mut self, rt: &impl Print) {
        let _ = rt.write_all(&self.bytes[..self.waiting]);
        self.waiting = 0;
    }

    // Writes what waits if it fills half the room, so that a further line finds its own.
    pub(crate) fn write_half(&mut self, rt: &impl Print) {
        if ROOM / 2 <= self.waiting {
            self.write(rt);
        }
    }
}

// Appends as far as there is room.
impl fmt::Write for Output {
    fn write_str(&mut self, s: &str) -> fmt::Result {
        let at = self.waiting;
        let bytes = &mut self.bytes;
        copy(s.as_bytes(), &mut bytes[at..]);
        self.waiting = at + s.len().min(ROOM - at);
        Ok(())
    }
}
