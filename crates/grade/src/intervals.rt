// The grade in intervals, in the original's order of operations. Its constants are made once, by `intervals`. `#[inline(always)]` stands on
// what a walk asks of a ramp for each box, as on gyroid's functions of a box, which called one by one make it slower.
ghost use Rattle.std.specs.Prelude.{◌≡◌, ◌<◌};
ghost use Rattle.exact.specs.Within.{Within};
ghost use Rattle.grade.specs.Fits.{Within3, LinearFits, DefFits};
ghost use Rattle.grade.specs.Intervals.{unit, units, slope_along, slopes, zeros, gradient, piece_gradient, piece_of};
ghost use Rattle.grade.specs.FunctionsInUse.{linear_intervals, grade_intervals, along_axis, parameter_of, parameter, level_of, interval, affine, piece};

use crate::ramp::chosen;
use crate::{GradeDef, GradeIntervals, Linear, LinearIntervals, Piece};
use interval::Interval;

// Ticks in millimetres, and level counts as levels.
fn unit(z: i64) -> Interval
    requires { Within 2097152 z }
    ensures { result ≡ unit z }
{
    Interval::from_rational(z, 1024)
}

// One by one: by `map` the check does not find that each entry keeps the bound that `unit` asks.
fn units(v: [i64; 3]) -> [Interval; 3]
    requires { Within3 2097152 v }
    ensures { result ≡ units v }
{
    [unit(v[0]), unit(v[1]), unit(v[2])]
}

impl Linear {
    // The gradient along an axis on which the anchors differ by d.
    fn slope_along(&self, d: i64) -> Interval
        requires { LinearFits self.now × Within 2097152 d }
        ensures { result ≡ slope_along self.now d }
    {
        Interval::from_rational(d * (self.end - self.start), self.length_sq as u64)
    }

    // One by one, as `units`: by `map` the check does not find that each entry keeps the bound that `slope_along` asks.
    fn slopes(&self) -> [Interval; 3]
        requires { LinearFits self.now }
        ensures { result ≡ slopes self.now }
    {
        let d = self.direction;
        [
            self.slope_along(d[0]),
            self.slope_along(d[1]),
            self.slope_along(d[2]),
        ]
    }

    #[tactic(auto, unfolding(crate::specs::Intervals::linear_intervals))]
    pub fn intervals(&self) -> LinearIntervals
        requires { LinearFits self.now }
        ensures { result ≡ linear_intervals self.now }
    {
        let start = unit(self.start);
        LinearIntervals {
            from: units(self.from),
            direction: units(self.direction),
            length_sq: Interval::from_rational(self.length_sq, 1048576),
            start,
            rise: unit(self.end) - start,
            slope: self.slopes(),
        }
    }
}

impl GradeDef {
    #[tactic(auto, unfolding(crate::specs::Intervals::grade_intervals))]
    pub fn intervals(&self) -> GradeIntervals
        requires { DefFits self.now }
        ensures { result ≡ grade_intervals self.now }
    {
        match self {
            GradeDef::Constant(level) => GradeIntervals::Constant(unit(*level)),
            GradeDef::Linear(linear) => GradeIntervals::Linear(linear.intervals()),
        }
    }
}

impl LinearIntervals {
    // (x − from)·direction on one axis.
    #[tactic(auto, unfolding(crate::specs::Intervals::along_axis))]
    pub fn along_axis(&self, i: usize, x: Interval) -> Interval
        requires { i < 3 }
        ensures { result ≡ along_axis self.now i x }
    {
        (x - self.from[i]) * self.direction[i]
    }

    // t, from its share of each axis.
    #[tactic(auto, unfolding(crate::specs::Intervals::parameter_of))]
    #[inline(always)]
    pub fn parameter_of(&self, x: Interval, y: Interval, z: Interval) -> Interval
        ensures { result ≡ parameter_of self.now x y z }
    {
        (Interval::point(0.0) + x + y + z) / self.length_sq
    }

    #[tactic(auto, unfolding(crate::specs::Intervals::parameter))]
    pub fn interval_parameter(&self, w: [Interval; 3]) -> Interval
        ensures { result ≡ parameter self.now w }
    {
        let x = self.along_axis(0, w[0]);
        let y = self.along_axis(1, w[1]);
        let z = self.along_axis(2, w[2]);
        self.parameter_of(x, y, z)
    }

    // start + t (end − start).
    #[tactic(auto, unfolding(crate::specs::Intervals::level_of))]
    #[inline(always)]
    pub fn level_of(&self, t: Interval) -> Interval
        ensures { result ≡ level_of self.now t }
    {
        self.start + t * self.rise
    }
}

#[tactic(auto, unfolding(crate::specs::Intervals::piece_of))]
pub fn piece_of(t: Interval) -> Option<Piece>
    ensures { result ≡ piece_of t }
{
    chosen(t.hi <= 0.0, 1.0 <= t.lo, (0.0 <= t.lo) & (t.hi <= 1.0))
}

pub fn zeros() -> [Interval; 3]
    ensures { result ≡ zeros }
{
    [Interval::point(0.0); 3]
}

impl GradeIntervals {
    // The level over a box, held between its ends.
    #[tactic(auto, unfolding(crate::specs::Intervals::interval))]
    pub fn interval(&self, w: [Interval; 3]) -> Interval
        ensures { result ≡ interval self.now w }
    {
        match self {
            GradeIntervals::Constant(level) => *level,
            GradeIntervals::Linear(linear) => linear.level_of(
                linear.interval_parameter(w).clamp01(),
            ),
        }
    }

    // The level's affine extension, not held.
    #[tactic(auto, unfolding(crate::specs::Intervals::affine))]
    pub fn affine(&self, w: [Interval; 3]) -> Interval
        ensures { result ≡ affine self.now w }
    {
        match self {
            GradeIntervals::Constant(level) => *level,
            GradeIntervals::Linear(linear) => linear.level_of(linear.interval_parameter(w)),
        }
    }

    // The gradient of the affine extension.
    #[tactic(auto, unfolding(crate::specs::Intervals::gradient))]
    pub fn gradient(&self) -> [Interval; 3]
        ensures { result ≡ gradient self.now }
    {
        match self {
            GradeIntervals::Constant(_) => zeros(),
            GradeIntervals::Linear(linear) => linear.slope,
        }
    }

    #[tactic(auto, unfolding(crate::specs::Intervals::piece_gradient))]
    pub fn piece_gradient(&self, piece: Piece) -> [Interval; 3]
        ensures { result ≡ piece_gradient self.now piece }
    {
        match piece {
            Piece::Ramp => self.gradient(),
            Piece::Start | Piece::End => zeros(),
        }
    }

    #[tactic(auto, unfolding(crate::specs::Intervals::piece))]
    pub fn piece(&self, w: [Interval; 3]) -> Option<Piece>
        ensures { result ≡ piece self.now w }
    {
        match self {
            GradeIntervals::Constant(_) => Some(Piece::Start),
            GradeIntervals::Linear(linear) => piece_of(linear.interval_parameter(w)),
        }
    }
}
