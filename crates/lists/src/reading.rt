// Bytes of a list, and why there are none.
ghost use Rattle.std.specs.Prelude.{◌≡◌, ◌≢◌, ◌<◌, ◌≤◌, IfOk, OnOk, IsErrOf, length, take};
ghost use Rattle.std.specs.Io.KnownBytes.{Consumes, IsAtEnd};
ghost use Rattle.lists.specs.declared.reading.Stop.TheVariants.{Failed};

use std::io;
use std::io::{ErrorKind, Read};

// Why a list gives no case.
#[derive(Debug, Drop)]
pub enum Stop {
    End, // it has no more
    Broken, // it breaks off, or a length is longer than what there is room for
    Failed(io::Error),
}

impl From<io::Error> for Stop {
    ghost from_gives = { λ e s. s ≡ Failed e };

    fn from(e: io::Error) -> Stop {
        Stop::Failed(e)
    }
}

// Reads until s is full or the text ends; how many bytes it put at the front of s.
pub fn read_full<R: Read>(text: &mut R, s: &mut [u8]) -> io::Result<usize>
    ensures count { IfOk result (λ n. n ≤ length s.new) }
    ensures bytes { IfOk result (λ n. Consumes (R.remaining text.old) (R.remaining text.new) (take n s.new)) }
    ensures end { IfOk result (λ n. n < length s.new → IsAtEnd (R.remaining text.new)) }
{
    let mut done = 0;
    // No contract says how often a read is interrupted: the count makes the loop end.
    for _ in 0..u64::MAX {
        if done >= s.len() {
            return Ok(done);
        }
        match text.read(&mut s[done..]) {
            Ok(0) => return Ok(done),
            Ok(n) => done += n,
            Err(e) if e.kind() == ErrorKind::Interrupted => {}
            Err(e) => return Err(e),
        }
    }
    Err(io::Error::from(ErrorKind::TimedOut))
}

// Fills s with the next bytes of a case.
pub fn fill<R: Read>(list: &mut R, s: &mut [u8]) -> Result<(), Stop>
    ensures bytes { OnOk result (Consumes (R.remaining list.old) (R.remaining list.new) s.new) }
    ensures broken { IsErrOf result Stop.Broken → IsAtEnd (R.remaining list.new) }
{
    if read_full(list, s)? < s.len() {
        return Err(Stop::Broken);
    }
    Ok(())
}

// Fills s with the first bytes of a case; a list may end before them.
pub fn begin<R: Read>(list: &mut R, s: &mut [u8]) -> Result<(), Stop>
    ensures bytes { OnOk result (Consumes (R.remaining list.old) (R.remaining list.new) s.new) }
    ensures broken { IsErrOf result Stop.Broken → IsAtEnd (R.remaining list.new) }
{
    match read_full(list, s)? {
        0 => Err(Stop::End),
        n if n < s.len() => Err(Stop::Broken),
        _ => Ok(()),
    }
}

// Fills the first n bytes of s with the next of a case, if s has so many.
pub fn fill_front<R: Read>(list: &mut R, s: &mut [u8], n: usize) -> Result<(), Stop>
    ensures bytes { OnOk result (Consumes (R.remaining list.old) (R.remaining list.new) (take n s.new)) }
    ensures room { OnOk result (n ≤ length s.new) }
{
    if n > s.len() {
        return Err(Stop::Broken);
    }
    fill(list, &mut s[..n])
}
