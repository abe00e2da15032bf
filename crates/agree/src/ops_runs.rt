// The ops over the assembler: a run of frames, step by step, and one step from any state.
use crate::cases::{Case, Fault, Payloads, up_to};
use crate::ops_follower::{code_of, state_of};
use crate::reply::{Answer, Refused, Step, Told, answer};
use exports::answers::PlaneAssembler;
use exports::assembling::{plane_give_up, plane_new_assembler, plane_take};
use std::fmt;

// In the place of a step's length: the open event is given up.
const GIVE_UP: u16 = 65535;

// The most steps of a case.
const STEPS: usize = 24;

// The first step of a payload, its frame or nothing where the open event is given up, and what is behind it; nothing where it is not whole.
fn first_step(p: &[u8]) -> Option<(Option<&[u8]>, &[u8])> {
    let (length, rest) = p.split_first_chunk()?;
    let length = u16::from_le_bytes(*length);
    if length == GIVE_UP {
        return Some((None, rest));
    }
    let (frame, rest) = rest.split_at_checked(length as usize)?;
    Some((Some(frame), rest))
}

// Takes a frame, or gives the open event up.
fn step_with(assembler: &mut PlaneAssembler, frame: Option<&[u8]>) -> Step {
    let Some(frame) = frame else {
        *assembler = plane_give_up(*assembler);
        return Step::GivenUp;
    };
    let x = plane_take(*assembler, frame);
    *assembler = x.next;
    if x.refused != 0 {
        return Step::Refused(Refused {
            number: x.refused,
            place: x.place,
        });
    }
    Step::Lost(x.lost)
}

// Whether a payload is steps, all of them whole, and no more than a case has.
fn is_run(p: &[u8]) -> bool {
    let mut rest = p;
    for _ in 0..STEPS {
        let Some((_frame, behind)) = first_step(rest) else {
            break;
        };
        rest = behind;
    }
    rest.is_empty()
}

// A run: the assembler that takes the steps of a payload.
#[derive(Clone, Copy)]
pub(crate) struct Steps<'a> {
    assembler: PlaneAssembler,
    steps: &'a [u8],
}

// Each step, and what is open at the end. The steps are taken as they are written: a list of them would be a `Vec`, and no heap is asked for, or an
// array that makes every reply as large.
impl fmt::Display for Steps<'_> {
    fn fmt<W: fmt::Write>(&self, f: &mut fmt::Formatter<W>) -> fmt::Result {
        let mut assembler = self.assembler;
        let mut rest = self.steps;
        for _ in 0..STEPS {
            let Some((frame, behind)) = first_step(rest) else {
                break;
            };
            let step = step_with(&mut assembler, frame);
            write!(f, " {step}")?;
            rest = behind;
        }
        if assembler.open == 0 {
            return write!(f, " none");
        }
        write!(f, " open {} {}", assembler.number, assembler.size)
    }
}

// Op 20: a new assembler of card a0 takes the steps of p, all of them whole, and no more than a case has.
pub(crate) fn run<'a>(case: &Case, p: &'a [u8]) -> Result<Steps<'a>, Fault> {
    let [card] = case.args::<1>(Payloads::P)?;
    let assembler = plane_new_assembler(u16::try_from(card)?);
    if !is_run(p) {
        return Err(Fault::BadCase);
    }
    Ok(Steps {
        assembler,
        steps: p,
    })
}

// The assembler in any state: card, follower, whether an event is open, its number, its size and its last header, coded as 0, or 1 + 128 chip +
// channel. Where no event is open these three are zero.
fn assembler_of(
    [card, follower, open, number, size, header]: [u64; 6],
) -> Result<PlaneAssembler, Fault> {
    let (card, header) = (up_to(31, card)?, up_to(512, header)?);
    if open == 0 && (number != 0 || size != 0 || header != 0) {
        return Err(Fault::BadCase);
    }
    let key = if header == 0 { 0 } else { header + 2048 * card };
    Ok(PlaneAssembler {
        card: u16::try_from(card)?,
        open: u8::try_from(up_to(1, open)?)?,
        follower: state_of(follower)?,
        number: u32::try_from(number)?,
        size: u32::try_from(size)?,
        key: u32::try_from(key)?,
    })
}

// Op 21: one step, of an assembler in any state, with the frame p.
pub(crate) fn step(case: &Case, p: &[u8]) -> Result<Answer, Fault> {
    let taken = plane_take(assembler_of(case.args(Payloads::P)?)?, p);
    let follower = code_of(taken.next.follower);
    Ok(answer(taken.refused, taken.place, Told::Taken { taken, follower }))
}
