// A case of the list: two numbers of six digits, the bytes of a text and of its answer, on a line of their own; then the text, then the answer.
ghost use Rattle.std.specs.Prelude.{◌<◌};

use lists::{Stop, begin, fill_front};
use std::io::Read;
use text::cells::cells;

// What is no digit counts too, below `0` as 0 and above `9` round from 0 again: what the program does of any bytes may not change.
fn digit(b: u8) -> usize
    ensures { result < 10 }
{
    usize::from(b.saturating_sub(b'0')) % 10
}

// Six digits are given, so that nothing wraps; a fold's step stands for every number before it, and so has the operations that wrap.
fn number(digits: &[u8]) -> usize {
    digits.iter().fold(0, |n: usize, b| n.wrapping_mul(10).wrapping_add(digit(*b)))
}

// Whether what is printed of the next text of the list is its answer.
pub(crate) fn next<R: Read>(list: &mut R) -> Result<Option<bool>, Stop> {
    let mut head = [0u8; 14];
    begin(list, &mut head)?;
    let given = number(&head[..6]);
    let wanted = number(&head[7..13]);
    let mut text = [0u8; 4096];
    let mut answer = [0u8; 131072];
    fill_front(list, &mut text, given)?;
    fill_front(list, &mut answer, wanted)?;
    let mut out = [0u8; 131072];
    let n = cells(&text[..given], &mut out);
    Ok(Some(out[..n] == answer[..wanted]))
}
