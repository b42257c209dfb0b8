// Intervals of two doubles, document 01's "The interval stand-in": an end is stepped outward after an operation, but for the exact end of a sum
// or a difference (document 02, L2).
// Each function equals its definition in specs/ for all input; proofs/Encloses.antt says what the results hold.
#![tactic(auto)]

ghost use Rattle.std.specs.Prelude.{◌≡◌};
ghost use Rattle.interval.specs.Interval.{point, two_pi, Narrow, sum, difference, product, quotient, negation, square, mid, abs, magnitude, imin};
ghost use Rattle.interval.specs.Interval.{imax, clamp01};

pub mod step; // the next double above and below
pub mod outward; // both ends stepped at once; the lesser and the greater of two doubles
pub mod nearest; // the nearest double of a fraction, and its interval
pub mod sums; // whether a sum is exact, and its ends
pub mod floor; // the floor, the quarter number and its remainder
pub mod series; // the coefficients of sine and cosine, and their tails

use outward::{End, around, larger, smaller};
use std::ops::{Add, Div, Mul, Neg, Sub};
use sums::unless_exact;

// Two doubles, low ≤ high. The type does not enforce the order: a caller's doubles are tested where they come in, and every operation keeps
// it (proofs/Ordered.antt).
#[derive(Clone, Copy, Debug, PartialEq)]
pub struct Interval {
    pub lo: f64,
    pub hi: f64,
}

impl Interval {
    // The doubles on either side of 2π.
    pub const TWO_PI: Interval = Interval {
        lo: 6.283185307179586,
        hi: 6.283185307179587,
    };

    pub fn two_pi() -> Interval
        ensures { result ≡ two_pi }
    {
        Self::TWO_PI
    }

    pub fn new(lo: f64, hi: f64) -> Interval
        ensures { result ≡ record { lo = lo; hi = hi } }
    {
        Interval { lo, hi }
    }

    pub fn point(x: f64) -> Interval
        ensures { result ≡ point x }
    {
        Interval { lo: x, hi: x }
    }

    #[tactic(auto, unfolding(crate::specs::Interval::square))]
    pub fn square(self) -> Interval
        ensures { result ≡ square self }
    {
        self * self
    }

    #[tactic(auto, unfolding(crate::specs::Interval::mid))]
    pub fn mid(self) -> f64
        ensures { result ≡ mid self }
    {
        self.lo * 0.5 + self.hi * 0.5
    }

    // The larger size of the two ends.
    #[tactic(auto, unfolding(crate::specs::Interval::magnitude))]
    pub fn magnitude(self) -> f64
        ensures { result ≡ magnitude self }
    {
        larger(size(self.lo), size(self.hi))
    }

    #[tactic(auto, unfolding(crate::specs::Interval::imin))]
    pub fn imin(self, o: Interval) -> Interval
        ensures { result ≡ imin self o }
    {
        Interval {
            lo: smaller(self.lo, o.lo),
            hi: smaller(self.hi, o.hi),
        }
    }

    #[tactic(auto, unfolding(crate::specs::Interval::imax))]
    pub fn imax(self, o: Interval) -> Interval
        ensures { result ≡ imax self o }
    {
        Interval {
            lo: larger(self.lo, o.lo),
            hi: larger(self.hi, o.hi),
        }
    }

    // Held to 0..1.
    #[tactic(auto, unfolding(crate::specs::Interval::clamp01))]
    pub fn clamp01(self) -> Interval
        ensures { result ≡ clamp01 self }
    {
        self.imax(Interval::point(0.0)).imin(Interval::point(1.0))
    }
}

impl Add for Interval {
    type Output = Interval;

    ghost add_gives = { λ x y r. r ≡ sum Narrow x y };

    #[tactic(auto, unfolding(crate::specs::Interval::sum))]
    fn add(self, o: Interval) -> Interval {
        unless_exact(End::sum(self.lo, o.lo), End::sum(self.hi, o.hi))
    }
}

impl Sub for Interval {
    type Output = Interval;

    ghost sub_gives = { λ x y r. r ≡ difference Narrow x y };

    #[tactic(auto, unfolding(crate::specs::Interval::difference))]
    fn sub(self, o: Interval) -> Interval {
        let low = End::difference(self.lo, o.hi);
        let high = End::difference(self.hi, o.lo);
        unless_exact(low, high)
    }
}

impl Mul for Interval {
    type Output = Interval;

    ghost mul_gives = { λ x y r. r ≡ product x y };

    #[tactic(auto, unfolding(crate::specs::Interval::product))]
    fn mul(self, o: Interval) -> Interval {
        around(
            self.lo * o.lo,
            self.lo * o.hi,
            self.hi * o.lo,
            self.hi * o.hi,
        )
    }
}

impl Div for Interval {
    type Output = Interval;

    ghost div_gives = { λ x y r. r ≡ quotient x y };

    #[tactic(auto, unfolding(crate::specs::Interval::quotient))]
    fn div(self, o: Interval) -> Interval {
        around(
            self.lo / o.lo,
            self.lo / o.hi,
            self.hi / o.lo,
            self.hi / o.hi,
        )
    }
}

impl Neg for Interval {
    type Output = Interval;

    ghost neg_gives = { λ x r. r ≡ negation x };

    #[tactic(auto, unfolding(crate::specs::Interval::negation))]
    fn neg(self) -> Interval {
        Interval {
            lo: -self.hi,
            hi: -self.lo,
        }
    }
}

// `f64::abs` takes the sign off a zero as well, which the definition leaves on.
fn size(x: f64) -> f64
    ensures { result ≡ abs x }
{
    if x < 0.0 { -x } else { x }
}
