// A case's head: 72 bytes, numbers low byte first; and what an op takes of it.
ghost use Rattle.std.specs.Prelude.{◌+◌, ◌*◌, ◌≡◌, ◌≤◌, ◌<◌, length, IfOk};
ghost use Rattle.agree.specs.Cases.{NumberAt};

use book::class::NoClass;
use book::words::long;
use std::io::Read;
use std::num::TryFromIntError;

// Why a case has no line of its own.
#[derive(Clone, Copy, Debug, PartialEq, Eq)]
pub(crate) enum Fault {
    // No listed op, arguments that the op does not have, or input that ends inside the case.
    BadCase,
}

// A number that is no class's.
impl From<NoClass> for Fault {
    fn from(_e: NoClass) -> Fault {
        Fault::BadCase
    }
}

// An argument that is wider than the op takes it.
impl From<TryFromIntError> for Fault {
    fn from(_e: TryFromIntError) -> Fault {
        Fault::BadCase
    }
}

// Which payloads an op may have; the others are empty.
#[derive(Clone, Copy, Debug, PartialEq, Eq)]
pub(crate) enum Payloads {
    None,
    P,
    PAndQ,
}

// The head, taken apart.
#[derive(Clone, Copy, Debug)]
pub(crate) struct Case {
    // The op. The seven bytes after it belong to this number, so that it is a listed op only where they are zero.
    pub op: u64,
    args: [u64; 7],
    pub p_length: usize,
    pub q_length: usize,
}

// The number of 8 bytes that begins with the two numbers of 4 bytes.
pub(crate) fn number(low: u32, high: u32) -> u64
    ensures { result ≡ low + 4294967296 * high }
{
    low as u64 + 4294967296 * (high as u64)
}

// The i-th number of 8 bytes.
fn at(head: &[u8], i: usize) -> u64
    requires { i < 9 }
    ensures { NumberAt head.now i result }
{
    let low = long(head, 4 * i);
    let high = long(head, 4 * i + 2);
    number(low, high)
}

// Reads once, and asks for all that is lent: 0 bytes at the end of the input, or where the read fails. An interrupted one is not tried again.
fn read_some(input: &mut impl Read, buf: &mut [u8]) -> usize
    ensures { result ≤ length buf.new }
{
    input.read(buf).unwrap_or(0)
}

// Reads until the slice is full or the input ends, and tells how many bytes came: by `while`, since it goes on by as many as a read gave. It is no
// `read_to_end`, which grows a `Vec`, asks for 8,192 bytes at a time and tries an interrupted read again. list has the same: what a reader gives is not
// known, and nothing public may be without a statement of its result.
pub(crate) fn read_full(input: &mut impl Read, buf: &mut [u8]) -> usize
    ensures { result ≤ length buf.new }
{
    let mut done = 0;
    while done < buf.len() {
        let n = read_some(input, &mut buf[done..]);
        if n == 0 {
            break;
        }
        done += n;
    }
    done
}

impl Case {
    // The bytes of a head.
    pub(crate) const HEAD: usize = 72;

    // The most bytes of a payload.
    pub(crate) const MOST: usize = 24576;

    pub(crate) fn of_head(head: &[u8; 72]) -> Case {
        Case {
            op: at(head, 0),
            args: [
                at(head, 1),
                at(head, 2),
                at(head, 3),
                at(head, 4),
                at(head, 5),
                at(head, 6),
                at(head, 7),
            ],
            p_length: long(head, 32) as usize,
            q_length: long(head, 34) as usize,
        }
    }

    // The arguments of an op that takes the first N, and these payloads: the others are zero.
    pub(crate) fn args<const N: usize>(&self, payloads: Payloads) -> Result<[u64; N], Fault> {
        let only = self.args.iter().skip(N).all(|a| *a == 0)
            && (payloads != Payloads::None || self.p_length == 0)
            && (payloads == Payloads::PAndQ || self.q_length == 0);
        match self.args.first_chunk() {
            Some(first) if only => Ok(*first),
            _ => Err(Fault::BadCase),
        }
    }
}

// An argument that is no more than what an op allows.
pub(crate) fn up_to(most: u64, x: u64) -> Result<u64, Fault>
    ensures { IfOk result (λ y. y ≤ most) }
{
    if most < x {
        return Err(Fault::BadCase);
    }
    Ok(x)
}
