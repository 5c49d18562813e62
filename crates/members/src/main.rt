// Reads one byte, the expression's length, then the expression and the delivery, from standard input. Prints each member of the
// expression over the delivered lists on a line, then the moves; or the number of a refusal. The text is `report::report`'s.
#![tactic(auto)]

ghost use Rattle.std.specs.Prelude.{◌≤◌, length, IfOk};

use std::io;
use std::io::{Read, Write};

// Reads until the input ends or the buffer is full, in whatever pieces it comes, and hands back how much was read.
fn read_input(rt: &HostRuntime, buf: &mut [u8]) -> io::Result<usize>
    ensures { IfOk result (λ n. n ≤ length buf.new) }
{
    let mut n = 0;
    while n < buf.len() {
        let got = rt.stdin().read(&mut buf[n..])?;
        if got == 0 {
            break;
        }
        n += got;
    }
    Ok(n)
}

fn main(rt: HostRuntime) -> io::Result<()> {
    // one byte more than the longest input, so that a longer one is seen to be longer
    let mut input = [0u8; 65536];
    let Ok(n) = read_input(&rt, &mut input) else {
        return rt
            .stderr()
            .write_all(b"members: standard input cannot be read\n");
    };
    let mut text = [0u8; 45073];
    let end = report::report(&input[..n], &mut text);
    if rt.stdout().write_all(&text[..end]).is_err() {
        return rt
            .stderr()
            .write_all(b"members: the list cannot be written\n");
    }
    Ok(())
}
