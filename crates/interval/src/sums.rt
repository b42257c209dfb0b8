// Sums and differences, of which an end that is exact is not stepped. Whether one is exact changes from box to box, and no branch foretells it:
// the two comparisons move a bit pattern by one or by nothing.
ghost use Rattle.std.specs.Prelude.{◌≡◌};
ghost use Rattle.std.specs.Float.{binary64};
ghost use Rattle.std.specs.Float.Ieee as Ieee;
ghost use Rattle.interval.specs.Interval.{point, exact_sum, exact_difference, Narrow, step_down, step_up, stepped, difference};

use crate::Interval;
use crate::outward::{End, above, below};
use crate::step::{next_down, next_up};

impl End {
    // The rounded sum, and whether it is the sum: both differences give the operands back. One of the two can do so where digits were lost.
    #[tactic(auto, using(crate::proofs::ExactTest::exact_test), unfolding(crate::proofs::ExactTest::looks_exact))]
    pub fn sum(a: f64, b: f64) -> End
        ensures { result ≡ record { value = Ieee.add binary64 a b; exact = exact_sum a b } }
    {
        let s = a + b;
        End {
            value: s,
            exact: (s - a == b) & (s - b == a),
        }
    }

    #[tactic(auto, using(crate::proofs::ExactTest::difference_is, crate::proofs::ExactTest::minus_is))]
    pub fn difference(a: f64, b: f64) -> End
        ensures { result ≡ record { value = Ieee.sub binary64 a b; exact = exact_difference a b } }
    {
        End::sum(a, -b)
    }

    // As the low end of an interval.
    fn down(self) -> f64
        ensures { result ≡ step_down Narrow self.exact self.value }
    {
        let next = next_down(self.value);
        if self.exact { self.value } else { next }
    }

    // As the high end of an interval.
    fn up(self) -> f64
        ensures { result ≡ step_up Narrow self.exact self.value }
    {
        let next = next_up(self.value);
        if self.exact { self.value } else { next }
    }
}

// The high end of a difference of two doubles.
#[tactic(auto, unfolding(crate::specs::Interval::difference))]
pub fn difference_high(a: f64, b: f64) -> f64
    ensures { result ≡ (difference Narrow (point a) (point b)).hi }
{
    End::difference(a, b).up()
}

// Each end by itself.
pub fn singly(low: End, high: End) -> Interval
    ensures { result ≡ stepped Narrow low.value low.exact high.value high.exact }
{
    Interval {
        lo: low.down(),
        hi: high.up(),
    }
}

// Each end stepped outward, unless it is exact. Where both are above zero or both below, the steps are one sum on each bit pattern.
#[tactic(auto, using(crate::proofs::FourCode::from_lowest))]
pub fn unless_exact(low: End, high: End) -> Interval
    ensures { result ≡ stepped Narrow low.value low.exact high.value high.exact }
{
    if 0.0 < low.value {
        if 0.0 < high.value {
            if high.value <= f64::MAX {
                return above(low, high);
            }
        }
    } else if high.value < 0.0 {
        if low.value < 0.0 {
            if -f64::MAX <= low.value {
                return below(low, high);
            }
        }
    }
    singly(low, high)
}
