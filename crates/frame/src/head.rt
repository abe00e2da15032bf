// A frame's first five rules, and what its start word says.
ghost use Rattle.std.specs.Prelude.{◌≡◌, true};
ghost use Rattle.format.specs.Book.{class_of};
ghost use Rattle.format.specs.Frames.{start_fits, kind_of, head_fault};
ghost use Rattle.rules.specs.Views.{view_kind};
ghost use Rattle.frame.specs.Views.{number_or_zero};

use book::class::Class;
use book::refusal::Fault;
use book::words::word;
use follower::Follower;
use rules::state::Kind;

// The fewest and the most bytes of a frame.
pub const LEAST: usize = 8;

pub const MOST: usize = 8192;

// The sequence word that starts the count, and the highest there is.
pub const LAST_SEQUENCE: u16 = Follower::START;

// The last word of a frame.
pub const END: u16 = Class::FRAME_END;

// The word is a frame start of version 0: its kind and version are its high eleven bits.
pub(crate) fn is_start(w: u16) -> bool
    ensures { result ≡ start_fits w }
{
    matches!(w >> 5, 0x40 | 0x30 | 0x20)
}

// The kind of a frame start.
pub(crate) fn kind_of(w: u16) -> Kind
    requires { start_fits w ≡ true }
    ensures { view_kind result ≡ kind_of (class_of w) }
{
    match w >> 5 {
        0x40 => Kind::Data,
        0x30 => Kind::Monitor,
        _ => Kind::Command,
    }
}

// Err with the first of rules 1 to 5 that is broken. Apart from the walk: with these early exits before its loop the compiler takes what
// is called in the loop for rarely used, and does not inline it.
pub(crate) fn head_fault(s: &[u8]) -> Result<(), Fault>
    ensures { number_or_zero result ≡ head_fault s.now }
{
    let n = s.len();
    if n % 2 != 0 || n < LEAST || MOST < n {
        return Err(Fault::Length);
    }
    if !is_start(word(s, 0)) {
        return Err(Fault::Kind);
    }
    if word(s, 1) as usize != n {
        return Err(Fault::Size);
    }
    if LAST_SEQUENCE < word(s, 2) {
        return Err(Fault::Sequence);
    }
    if word(s, n / 2 - 1) != END {
        return Err(Fault::End);
    }
    Ok(())
}
