// Replays texts that were answered elsewhere: asks what program `cells` prints of each, and prints how many were seen and how many differ. One
// that differs is named by its place, counted from 0.
#![tactic(auto)]

mod case; // a text of the list and its answer, read and tried

use lists::tallied;
use std::io;

fn main(rt: HostRuntime) -> io::Result<()> {
    let differs = |place: u64| println!(rt; "differs: {place}");
    match tallied(&rt, "lines", case::next, differs)? {
        Some(tally) => println!(rt; "{} texts, {} differ", tally.seen, tally.bad),
        None => Ok(()),
    }
}
