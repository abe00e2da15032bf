// The proved library's side of the comparison with an independent second program (document 01, "Figures to agree with"): reads cases from
// standard input and writes one line for each. README.md says what a case and its line look like, and how an op is added.
//
// The ops that are there: 0 classify, 1 read, 2 item, 3 text, 4 event, 5 samples, 6 counts, 7 begin, 8 add, 9 add text, 10 close, 11 follow, 12 record, 13 entry, 14 open, 15 edit,
// 16 restore, 17 list, 18 sample word, 19 bin word, 20 a run, 21 one step of an assembler, 22 edit all. Any other is a bad case.
#![tactic(auto)]

mod cases;
mod ops;
mod ops_book;
mod ops_corrections;
mod ops_editor;
mod ops_follower;
mod ops_frame;
mod ops_list;
mod ops_questions;
mod ops_record;
mod ops_runs;
mod ops_writer;
mod output;
mod reply;
mod sums;

use cases::{Case, Fault, read_full};
use output::Output;
use reply::Reply;
use std::fmt::Write;
use std::io::Read;
use std::ops::ControlFlow;

// Reads a payload, and tells whether it came whole.
fn fill(input: &mut impl Read, payload: &mut [u8]) -> bool {
    read_full(input, payload) == payload.len()
}

// Reads the payloads of a case, each into the first bytes of its buffer, and answers it. Where either is too long no byte of them is read; else both
// are, also where the input ended before: in P, or in the head, of which `got` bytes came and the others are zero.
fn answer<'a>(
    input: &mut impl Read,
    head: &[u8; Case::HEAD],
    got: usize,
    p: &'a mut [u8],
    q: &mut [u8],
) -> Result<Reply<'a>, Fault> {
    let case = Case::of_head(head);
    let p = p.get_mut(..case.p_length).ok_or(Fault::BadCase)?;
    let q = q.get_mut(..case.q_length).ok_or(Fault::BadCase)?;
    if fill(input, p) & fill(input, q) & (got == Case::HEAD) {
        return ops::answer(&case, p, q);
    }
    Err(Fault::BadCase)
}

// Reads one case and adds its line to what waits, unless the input ends here. A bad case is the last.
fn turn(input: &mut impl Read, p: &mut [u8], q: &mut [u8], output: &mut Output) -> ControlFlow<()> {
    let mut head = [0; Case::HEAD];
    let got = read_full(input, &mut head);
    if got == 0 {
        return ControlFlow::Break(());
    }
    let reply = match answer(input, &head, got, p, q) {
        Ok(reply) => reply,
        Err(Fault::BadCase) => Reply::bad_case(),
    };
    let _ = writeln!(output, "{reply}");
    if reply.is_bad_case() {
        return ControlFlow::Break(());
    }
    ControlFlow::Continue(())
}

// All cases, up to the end of the input or the first that is none. A proved loop has to end, and nothing says that the input does: so this one
// counts its turns, up to a number that no run uses up.
fn run(rt: &impl Print, input: &mut impl Read, p: &mut [u8], q: &mut [u8], output: &mut Output) {
    for _ in 0..u64::MAX {
        output.write_half(rt);
        if turn(input, p, q, output).is_break() {
            break;
        }
    }
    output.write(rt);
}

// The arrays for the payloads are as long as a payload may be. They are made here once and lent, as the output is: no heap is asked for.
fn main(rt: HostRuntime) {
    let mut p = [0; Case::MOST];
    let mut q = [0; Case::MOST];
    let mut output = Output::new();
    run(&rt, &mut rt.stdin(), &mut p, &mut q, &mut output);
}
