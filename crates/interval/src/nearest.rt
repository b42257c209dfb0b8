// The nearest double of a fraction, by one rounding: whole numbers up to 2^53 are doubles, so one division rounds once.
ghost use Rattle.std.specs.Prelude.{◌≡◌, ◌^◌, ◌<◌, ◌≤◌, unsigned_abs};
ghost use Rattle.interval.specs.Nearest.{nearest, from_rational};

use crate::Interval;
use crate::outward::apart;

// No caller misses the bounds: every fraction of a description within document 01's limits has parts below 2^53.
#[tactic(auto, using(crate::proofs::NearestCode::quotient_is))]
pub fn nearest(num: i64, den: u64) -> f64
    requires { (unsigned_abs num ≤ 2 ^ 53) × (0 < den) × (den ≤ 2 ^ 53) }
    ensures { result ≡ nearest num den }
{
    std::num::nearest_i64_to_f64(num) / std::num::nearest_u64_to_f64(den)
}

// The nearest double of a whole number.
#[tactic(auto, using(crate::proofs::NearestCode::whole_is))]
pub fn whole(z: i64) -> f64
    ensures { result ≡ nearest z 1 }
{
    std::num::nearest_i64_to_f64(z)
}

impl Interval {
    // The nearest double, stepped both ways, also where it is the fraction itself.
    #[tactic(auto, unfolding(crate::specs::Nearest::from_rational))]
    pub fn from_rational(num: i64, den: u64) -> Interval
        requires { (unsigned_abs num ≤ 2 ^ 53) × (0 < den) × (den ≤ 2 ^ 53) }
        ensures { result ≡ from_rational num den }
    {
        let x = nearest(num, den);
        apart(x, x)
    }
}
