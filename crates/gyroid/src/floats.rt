// Boxes of doubles whose ends are at most a double in size, and those with no infinite end.
ghost use Rattle.std.specs.Prelude.{◌≡◌};
ghost use Rattle.gyroid.specs.Refusals.{ends_within, greatest_double, all_finite};

use interval::Interval;

// Both ends are at most x in size.
pub fn within(x: f64, b: Interval) -> bool
    ensures { result ≡ ends_within x b }
{
    (-x <= b.lo) & (b.lo <= x) & (-x <= b.hi) & (b.hi <= x)
}

pub fn finite(b: Interval) -> bool
    ensures { result ≡ ends_within greatest_double b }
{
    within(f64::MAX, b)
}

// Three tests: with `w.into_iter().all(finite)` the proof did not close.
#[tactic(auto, unfolding(crate::specs::Refusals::all_finite))]
pub fn all_finite(w: [Interval; 3]) -> bool
    ensures { result ≡ all_finite w }
{
    finite(w[0]) & finite(w[1]) & finite(w[2])
}
