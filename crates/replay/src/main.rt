// Replays lists of answers that were worked out elsewhere, and prints of each list how many answers were seen and how many differ. One that differs
// is named by its list and its place there, counted from 0.
#![tactic(auto)]

mod words; // what eight bytes stand for
mod intervals; // the interval layer's list
mod public_calls; // the public calls' list
mod lent; // the bytes that a case lends
mod walks; // the list of walks
mod reports; // the list of layer reports

use intervals::{BLOCK, Left};
use lists::{Stop, tallied};
use std::io;
use std::rt::Files;

// The list at the path, by what tries one case of it.
fn replay<R: Files + Print + Eprint, F: FnMut(&mut R::File) -> Result<Option<bool>, Stop>>(
    rt: &R,
    path: &str,
    case: F,
) -> io::Result<()>
    requires { F.IsAlwaysCallable case }
{
    let differs = |place: u64| println!(rt; "differs: {path} {place}");
    match tallied(rt, path, case, differs)? {
        Some(tally) => { println!(rt; "{path}: {} answers, {} differ", tally.seen, tally.bad) }
        None => Ok(()),
    }
}

fn main(rt: HostRuntime) -> io::Result<()> {
    let mut block = [[0; 8]; BLOCK];
    let mut left = Left::none();
    replay(
        &rt,
        "interval",
        |list| intervals::next(list, &mut block, &mut left),
    )?;
    let mut description = [0; 18];
    replay(
        &rt,
        "calls",
        |list| public_calls::next(list, &mut description),
    )?;
    replay(&rt, "walks", walks::next)?;
    replay(&rt, "layers", reports::next)
}
