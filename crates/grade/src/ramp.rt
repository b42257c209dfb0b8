// The linear level's numbers, and its exact answers over a whole-number box: numerators over L, in i64 without overflow. A box is its lows and
// its highs, apart, as `grade_range` and the other public calls take it.
ghost use Rattle.std.specs.Prelude.{◌≡◌};
ghost use Rattle.exact.specs.Within.{Within};
ghost use Rattle.grade.specs.Exact.{linear_of, level_over, least_along, greatest_along, bounds_of, linear_range, chosen, linear_piece};
ghost use Rattle.grade.specs.Fits.{Within3, LinearFits};

use crate::vector::{dot, least_corner, minus};
use crate::{Bounds, Linear, Piece};

// In document 01's order.
pub fn chosen(start: bool, end: bool, ramp: bool) -> Option<Piece>
    ensures { result ≡ chosen start end ramp }
{
    if start {
        return Some(Piece::Start);
    }
    if end {
        return Some(Piece::End);
    }
    ramp.then_some(Piece::Ramp)
}

impl Bounds {
    // Two numerators in order.
    fn of(a: i64, b: i64, over: i64) -> Bounds
        ensures { result ≡ bounds_of a b over }
    {
        Bounds {
            low: a.min(b),
            high: a.max(b),
            over,
        }
    }
}

impl Linear {
    #[tactic(auto, unfolding(crate::specs::Exact::linear_of))]
    pub fn new(from: [i64; 3], to: [i64; 3], start: i64, end: i64) -> Linear
        requires { Within3 1048576 from × Within3 1048576 to }
        ensures { result ≡ linear_of from to start end }
    {
        let direction = minus(to, from);
        Linear {
            from,
            direction,
            length_sq: dot(direction, direction),
            start,
            end,
        }
    }

    // t's least numerator over a box.
    #[tactic(auto, unfolding(crate::specs::Exact::least_along))]
    pub fn least_along(&self, lo: [i64; 3], hi: [i64; 3]) -> i64
        requires { LinearFits self.now × (Within3 1048576 lo × Within3 1048576 hi) }
        ensures { result ≡ least_along self.now lo hi }
    {
        let corner = least_corner(self.direction, lo, hi);
        dot(minus(corner, self.from), self.direction)
    }

    // And its greatest: the corner where the box with its ends exchanged has the least.
    pub fn greatest_along(&self, lo: [i64; 3], hi: [i64; 3]) -> i64
        requires { LinearFits self.now × (Within3 1048576 lo × Within3 1048576 hi) }
        ensures { result ≡ greatest_along self.now lo hi }
    {
        self.least_along(hi, lo)
    }

    // The level's numerator where t's numerator is t.
    #[tactic(auto, unfolding(crate::specs::Exact::level_over))]
    pub fn level_over(&self, t: i64) -> i64
        requires { LinearFits self.now × Within 13194139533312 t }
        ensures { result ≡ level_over self.now t }
    {
        let l = self.length_sq;
        self.start * l + t.clamp(0, l) * (self.end - self.start)
    }

    #[tactic(auto, unfolding(crate::specs::Exact::linear_range))]
    pub fn range(&self, lo: [i64; 3], hi: [i64; 3]) -> Bounds
        requires { LinearFits self.now × (Within3 1048576 lo × Within3 1048576 hi) }
        ensures { result ≡ linear_range self.now lo hi }
    {
        let a = self.level_over(self.least_along(lo, hi));
        let b = self.level_over(self.greatest_along(lo, hi));
        Bounds::of(a, b, self.length_sq)
    }

    #[tactic(auto, unfolding(crate::specs::Exact::linear_piece))]
    pub fn exact_piece(&self, lo: [i64; 3], hi: [i64; 3]) -> Option<Piece>
        requires { LinearFits self.now × (Within3 1048576 lo × Within3 1048576 hi) }
        ensures { result ≡ linear_piece self.now lo hi }
    {
        let least = self.least_along(lo, hi);
        let greatest = self.greatest_along(lo, hi);
        let l = self.length_sq;
        chosen(greatest <= 0, l <= least, (0 <= least) & (greatest <= l))
    }
}
