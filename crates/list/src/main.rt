// Reads a record buffer from standard input and prints its listing (document 01, "Figures to agree with"). What is printed are the bytes that
// `listing::listing` leaves, written out once.
#![tactic(auto)]

ghost use Rattle.std.specs.Prelude.{◌≡◌, ◌≤◌, length};

use listing::listing;
use std::io;
use std::io::Read;

// The most bytes that are read: those of the largest record.
const MOST: usize = 20496;

// Prints the listing of a buffer by way of lent memory that holds any, so that it is never refused.
fn print(rt: &impl Print, buf: &[u8], out: &mut [u8]) -> io::Result<()>
    requires { length out.old ≡ 92520 }
{
    let n = listing(buf, out).unwrap();
    rt.write_all(&out[..n])
}

// Reads once, and asks for all that is lent: 0 bytes at the end of the input, or where the read fails. An interrupted one is not tried again.
fn read_some(input: &mut impl Read, buf: &mut [u8]) -> usize
    ensures { result ≤ length buf.new }
{
    input.read(buf).unwrap_or(0)
}

// Reads until the slice is full or the input ends: a short read of a pipe is not the end. By `while`, since it goes on by as many bytes as a read
// gave; and it is no `read_to_end`, which grows a `Vec`, asks for 8,192 bytes at a time and tries an interrupted read again. agree has the same: what a
// reader gives is not known, and nothing public may be without a statement of its result.
fn read_full(input: &mut impl Read, buf: &mut [u8]) -> usize
    ensures { result ≤ length buf.new }
{
    let mut done = 0;
    while done < buf.len() {
        let n = read_some(input, &mut buf[done..]);
        if n == 0 {
            break;
        }
        done += n;
    }
    done
}

// Prints the listing of the input, as far as it comes.
fn list(rt: &impl Print, input: &mut impl Read, buf: &mut [u8], out: &mut [u8]) -> io::Result<()>
    requires { length out.old ≡ 92520 }
{
    let n = read_full(input, buf);
    print(rt, &buf[..n], out)
}

// Says what could not be written. The program ends with status 0 all the same: bin/list makes one of these words. Both buffers are arrays: no memory is
// asked for, so that none can be refused.
fn main(rt: HostRuntime) {
    let mut buf = [0; MOST];
    let mut out = [0; listing::MOST];
    if list(&rt, &mut rt.stdin(), &mut buf, &mut out).is_err() {
        let _ = eprintln!(rt; "list: the listing could not be written");
    }
}
