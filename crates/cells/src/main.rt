// Program `cells`: reads one line of 17 numbers from standard input, walks what it describes, and prints the table or a refusal. What it prints
// of what it reads is text::cells's contract. Where it could not write, it says so on standard error.
#![tactic(auto)]

use lists::read_full;
use std::io;
use std::io::Write;

fn main(rt: HostRuntime) -> io::Result<()> {
    // A line has 153 bytes at most, so a text that fills this is none, whatever follows: `front_decides` in text's LengthLaws.
    let mut input = [0u8; 256];
    let n = read_full(&mut rt.stdin(), &mut input)?;
    let mut out = [0u8; 131072];
    let end = text::cells::cells(&input[..n], &mut out);
    if rt.stdout().write_all(&out[..end]).is_err() {
        let _ = eprintln!(rt; "cells: could not write the listing");
    }
    Ok(())
}
