// The compiled leaf and its constructors. Its constants are made here once; nothing is divided again for a box but t by L.
ghost use Rattle.std.specs.Prelude.{◌≡◌, IfOk};
ghost use Rattle.exact.specs.Within.{Within};
ghost use Rattle.limits.specs.Refusals.{number_of};
ghost use Rattle.grade.specs.Fits.{SlopeFits};
ghost use Rattle.gyroid.specs.Leaf.{surface_of, constant_level, lipschitz_top, lipschitz_bottom};
ghost use Rattle.gyroid.specs.Fits.{Accepted};
ghost use Rattle.gyroid.specs.Refusals.{refusal};
ghost use Rattle.gyroid.specs.Constructors.{unsupported};
ghost use Rattle.gyroid.specs.InUse.{leaf};

use crate::entries::unsupported;
use crate::{Description, Gyroid, Surface};
use grade::{GradeDef, Slope};
use interval::Interval;
use interval::nearest::nearest;
use limits::refusals::Refusal;

// The surface of an accepted kind.
fn surface_of(kind: i64) -> Surface
    ensures { result ≡ surface_of kind }
{
    if kind == 2 {
        Surface::Primitive
    } else {
        Surface::Network
    }
}

// The level of a constant, in level counts.
fn constant_level(grade: &GradeDef) -> i64
    ensures { result ≡ constant_level grade.now }
{
    match grade {
        GradeDef::Constant(level) => *level,
        GradeDef::Linear(_) => 0,
    }
}

fn lipschitz_top(period: i64, slope: Slope) -> i64
    requires { Within 1048576 period × SlopeFits slope }
    ensures { result ≡ lipschitz_top period slope }
{
    22528 * slope.distance + slope.rise * period
}

#[tactic(auto, using(crate::proofs::AcceptedLaws::bottom_within))]
fn lipschitz_bottom(period: i64, slope: Slope) -> i64
    requires { Within 1048576 period × SlopeFits slope }
    ensures { result ≡ lipschitz_bottom period slope }
{
    period * slope.distance
}

impl Gyroid {
    // A turn of this size or more is not reduced.
    pub const LARGEST_TURN: f64 = 1_099_511_627_776.0;

    fn compile(description: Description) -> Gyroid
        requires { Accepted description }
        ensures { result ≡ leaf description }
    {
        let surface = surface_of(description.kind);
        let level = description.level;
        let grade = GradeDef::compile(level);
        let constant = constant_level(&grade);
        let slope = grade.slope_bound();
        let period = description.period as u64;
        let top = lipschitz_top(description.period, slope);
        let bottom = lipschitz_bottom(description.period, slope) as u64;
        let turns = Interval::from_rational(1024, period);
        let two_pi = Interval::two_pi();
        let wave = two_pi * turns;
        Gyroid {
            turns,
            two_pi,
            wave,
            wave_squared: wave.square(),
            sine: Interval::sine(),
            cosine: Interval::cosine(),
            tail_sine: Interval::tail_sine(),
            tail_cosine: Interval::tail_cosine(),
            lipschitz: Interval::from_rational(top, bottom),
            fast_turns: nearest(1024, period),
            fast_level: nearest(constant, 1024),
            fast_lipschitz: nearest(top, bottom),
            grade,
            intervals: grade.intervals(),
            surface,
        }
    }

    pub fn certified(description: Description) -> Result<Gyroid, Refusal>
        ensures number { number_of result ≡ refusal description }
        ensures leaf { IfOk result (λ g. g ≡ leaf description) }
    {
        description.refusal()?;
        Ok(Gyroid::compile(description))
    }

    pub fn new(description: Description) -> Result<Gyroid, Refusal>
        ensures number { number_of result ≡ unsupported (refusal description) }
        ensures leaf { IfOk result (λ g. g ≡ leaf description) }
    {
        Gyroid::certified(description).map_err(unsupported)
    }
}
