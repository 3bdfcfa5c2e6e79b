// The sheet program: reads the form from standard input, runs each commit as a transaction on 8 fresh pages, and writes the listing, or the
// number of the first bad line. What the lines do to the store, which rows there are and the bytes of each line written are proved. No
// contract can say what is read or written: that this is all of it, in this order, is tested.
#![tactic(auto)]

mod form;
mod listing;
mod waiting;

ghost use Rattle.std.specs.Prelude.{◌≤◌, IfOk, length};

use form::BadLine;
use std::io;
use std::io::{Read, Stdin, Stdout, Write};

// Reads until the input ends or the buffer is full, and answers how many bytes it put at the buffer's front.
fn read_full(input: &mut Stdin, buffer: &mut [u8]) -> io::Result<usize>
    ensures { IfOk result (λ n. n ≤ length buffer.new) }
{
    let mut done = 0;
    for _ in 0..u64::MAX {
        let more = input.read(&mut buffer[done..])?;
        if more == 0 {
            break;
        }
        done += more;
    }
    Ok(done)
}

// "The first line is always the heading." Of the input, the first 56,001 bytes decide: 2,000 lines of 28 bytes, and whether there is more.
fn main(rt: HostRuntime) -> io::Result<()> {
    let mut buffer = [0u8; 65536];
    let n = read_full(&mut rt.stdin(), &mut buffer)?;
    let mut out = rt.stdout();
    out.write_all(b"pageslot          key len\n")?;
    let mut image = [0u8; 8192];
    let _ = image::calls::format(&mut image);
    match form::take_lines(&buffer[..n], &mut image) {
        Ok(totals) => listing::print(&mut out, &image, totals.accepted, totals.refused),
        Err(BadLine(line)) => listing::print_line_number(&mut out, line),
    }
}
