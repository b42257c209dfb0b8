// The bytes that a case lends to a call.
ghost use Rattle.std.specs.Prelude.{◌≤◌, IfOk};

use lists::{Stop, fill_front};
use std::io::Read;

// The bytes of the longest table and of the longest report.
pub(crate) const LONGEST: usize = 4096;

// Their number by its word; a case is broken whose number is below 0 or above what is lent.
pub(crate) fn length_of(n: u64) -> Result<usize, Stop>
    ensures { IfOk result (λ m. m ≤ 4096) }
{
    let length = n.wrapping_sub(0x4000_0000_0000_0000) as usize;
    if length > LONGEST {
        return Err(Stop::Broken);
    }
    Ok(length)
}

// Bytes as the harness lends them: none is zero and none is as its neighbour, so that what is left, zeroed or moved can be told. They go round
// from 1 to 251 by steps of 37.
pub(crate) fn set_unwritten(s: &mut [u8]) {
    let mut byte: u8 = 1;
    for b in s {
        *b = byte;
        byte = if byte > 214 { byte - 214 } else { byte + 37 };
    }
}

// Reads the next n bytes of the list to the front, and the zeros behind them, up to a whole word.
pub(crate) fn read_padded<R: Read>(
    list: &mut R,
    bytes: &mut [u8; LONGEST],
    n: usize,
) -> Result<(), Stop>
    requires { n ≤ 4096 }
{
    fill_front(list, bytes, n.next_multiple_of(8))
}
