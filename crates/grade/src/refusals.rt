// What document 01's table refuses of a level, and of `grade_range`.
ghost use Rattle.std.specs.Prelude.{◌≡◌};
ghost use Rattle.limits.specs.Refusals.{number_of};
ghost use Rattle.grade.specs.Grade.{is_linear};
ghost use Rattle.grade.specs.Refusals.{is_distance, coincident, range_refusal};

use crate::Grade;
use limits::refusals::{Refusal, refuse};
use limits::ticks::{above, ticks};

impl Grade {
    pub fn is_linear(self) -> bool
        ensures { result ≡ is_linear self }
    {
        self.kind == 1
    }

    pub fn is_distance(self) -> bool
        ensures { result ≡ is_distance self }
    {
        self.kind == 2
    }

    // Whether a linear level's two anchors are one point.
    #[tactic(auto, using(crate::proofs::EntryLaws::equal_vectors))]
    pub fn coincident(self) -> bool
        ensures { result ≡ coincident self }
    {
        self.is_linear() & (self.from == self.to)
    }

    #[tactic(auto, using(limits::proofs::RefusalLaws::stopped, limits::proofs::RefusalLaws::passed_on), unfolding(crate::specs::Refusals::range_refusal))]
    pub fn range_refusal(self, lo: [i64; 3], hi: [i64; 3]) -> Result<(), Refusal>
        ensures { number_of result ≡ range_refusal self lo hi }
    {
        refuse(!(self.in_limits() & ticks(lo) & ticks(hi)), Refusal::Limits)?;
        refuse(above(lo, hi), Refusal::LowAboveHigh)?;
        refuse(self.is_distance(), Refusal::Distance)?;
        refuse(self.coincident(), Refusal::OnePoint)
    }
}
