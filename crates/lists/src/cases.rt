// The cases of a list, tried one after the other: how many answers were seen, and how many of them differ.
ghost use Rattle.std.specs.Prelude.{◌≡◌, ◌+◌, ◌^◌, ◌<◌, ◌≤◌, IfOk, IfSome, true, false};
ghost use Rattle.lists.specs.Cases.{Tried};

use crate::reading::Stop;
use std::io::ErrorKind;
use std::rt::Files;
use std::{fs, io};

#[derive(Clone, Copy)]
pub struct Tally {
    pub seen: u64,
    pub bad: u64,
    ghost within: { bad ≤ seen },
}

impl Tally {
    pub fn none() -> Tally
        ensures seen { result.seen ≡ 0 }
    {
        Tally { seen: 0, bad: 0 }
    }

    // One more answer seen.
    pub fn counted(self, good: bool) -> Tally
        requires { self.seen + 1 < 2 ^ 64 }
        ensures seen { result.seen ≡ self.seen + 1 }
        ensures good { good ≡ true → result.bad ≡ self.bad }
        ensures bad { good ≡ false → result.bad ≡ self.bad + 1 }
    {
        Tally {
            seen: self.seen + 1,
            bad: if good { self.bad } else { self.bad + 1 },
        }
    }
}

// Tries each case of the list. `case` answers whether the case's answer is the list's, or None where it has none; `differs` is told the place of
// each that differs, counted from 0. A list that breaks off counts as one answer that differs.
pub fn over<L, F: FnMut(&mut L) -> Result<Option<bool>, Stop>, D: FnMut(u64) -> io::Result<()>>(
    list: &mut L,
    mut case: F,
    mut differs: D,
) -> io::Result<Tally>
    requires case { F.IsAlwaysCallable case }
    requires differs { D.IsAlwaysCallable differs }
    ensures { IfOk result (λ t. Tried F.FnMut D.FnMut case list.old differs t.seen t.bad) }
{
    let mut tally = Tally::none();
    // No contract says how long a list is: the count makes the loop end.
    for _ in 0..u64::MAX {
        let good = match case(list) {
            Ok(None) => continue,
            Ok(Some(good)) => good,
            Err(Stop::End) => return Ok(tally),
            Err(Stop::Broken) => {
                differs(tally.seen)?;
                return Ok(tally.counted(false));
            }
            Err(Stop::Failed(e)) => return Err(e),
        };
        if !good {
            differs(tally.seen)?;
        }
        tally = tally.counted(good);
    }
    Err(io::Error::from(ErrorKind::TimedOut))
}

// The same of the list at the path, whatever stands in it. One that cannot be opened is named on standard error.
pub fn tallied<
    R: Files + Eprint,
    F: FnMut(&mut R::File) -> Result<Option<bool>, Stop>,
    D: FnMut(u64) -> io::Result<()>,
>(rt: &R, path: &str, case: F, differs: D) -> io::Result<Option<Tally>>
    requires case { F.IsAlwaysCallable case }
    requires differs { D.IsAlwaysCallable differs }
    ensures { IfOk result (λ o. IfSome o (λ t. (list : R.File) × Tried F.FnMut D.FnMut case list differs t.seen t.bad)) }
{
    match fs::open(rt, path) {
        Ok(mut list) => Ok(Some(over(&mut list, case, differs)?)),
        Err(e) => {
            eprintln!(rt; "{path}: {e}")?;
            Ok(None)
        }
    }
}
