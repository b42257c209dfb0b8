// Which entries of a level document 01 admits, its refusal 1.
ghost use Rattle.std.specs.Prelude.{◌≡◌};
ghost use Rattle.grade.specs.Grade.{kind, count, in_limits};

use crate::Grade;
use limits::ticks::ticks;

// The kinds are 0 constant, 1 linear and 2 distance.
fn kind(x: i64) -> bool
    ensures { result ≡ kind x }
{
    (0..=2).contains(&x)
}

pub fn count(x: i64) -> bool
    ensures { result ≡ count x }
{
    (Grade::COUNTS[0]..=Grade::COUNTS[1]).contains(&x)
}

impl Grade {
    // The least and the greatest of a level, under the one name that docs/PROOFS.md gives.
    pub const COUNTS: [i64; 2] = [-4096, 4096];

    #[tactic(auto, unfolding(crate::specs::Grade::in_limits))]
    pub fn in_limits(self) -> bool
        ensures { result ≡ in_limits self }
    {
        kind(self.kind) & ticks(self.from) & ticks(self.to) & count(self.start) & count(self.end)
    }
}
