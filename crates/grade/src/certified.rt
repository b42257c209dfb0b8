// The axis along which the anchors differ, the anchor planes, the slope, and what certification refuses.
ghost use Rattle.std.specs.Prelude.{◌≡◌};
ghost use Rattle.limits.specs.Refusals.{number_of};
ghost use Rattle.grade.specs.Certified.{axis, def_axis, linear_planes, planes, distance, rise, slope_bound, ending, linear_certification, certification};
ghost use Rattle.grade.specs.Fits.{LinearFits, DefFits};

use crate::{GradeDef, Linear, Planes, Slope};
use limits::refusals::{Refusal, refuse};

// An end of a certified linear level.
fn ending(x: i64) -> bool
    ensures { result ≡ ending x }
{
    (Linear::ENDS[0]..=Linear::ENDS[1]).contains(&x)
}

impl Linear {
    // The least and the greatest end of a certified linear level, as `Grade::COUNTS` of a level's counts.
    pub const ENDS: [i64; 2] = [-256, 256];

    // The one axis along which the anchors differ.
    #[tactic(auto, unfolding(crate::specs::Certified::axis))]
    pub fn axis(&self) -> Option<usize>
        ensures { result ≡ axis self.now }
    {
        match self.direction {
            [0, 0, 0] => None,
            [_, 0, 0] => Some(0),
            [0, _, 0] => Some(1),
            [0, 0, _] => Some(2),
            _ => None,
        }
    }

    #[tactic(auto, using(crate::proofs::AxisLaws::linear_axis_one))]
    pub fn planes(&self) -> Option<Planes>
        requires { LinearFits self.now }
        ensures { result ≡ linear_planes self.now }
    {
        let axis = self.axis()?;
        let from = self.from[axis];
        Some(Planes {
            axis,
            from,
            to: from + self.direction[axis],
        })
    }

    // The anchor distance in ticks, of anchors that differ along one axis.
    #[tactic(auto, unfolding(crate::specs::Certified::distance))]
    pub fn distance(&self) -> i64
        requires { LinearFits self.now }
        ensures { result ≡ distance self.now }
    {
        let d = self.direction;
        d[0].abs() + d[1].abs() + d[2].abs()
    }

    #[tactic(auto, unfolding(crate::specs::Certified::rise))]
    pub fn rise(&self) -> i64
        requires { LinearFits self.now }
        ensures { result ≡ rise self.now }
    {
        (self.end - self.start).abs()
    }

    pub fn check_certified(&self) -> Result<(), Refusal>
        requires { LinearFits self.now }
        ensures { number_of result ≡ linear_certification self.now }
    {
        refuse(self.axis().is_none(), Refusal::Axes)?;
        refuse(!(ending(self.start) & ending(self.end)), Refusal::Slope)?;
        refuse(self.distance() < 10 * self.rise(), Refusal::Slope)
    }
}

impl GradeDef {
    #[tactic(auto, unfolding(crate::specs::Certified::def_axis))]
    pub fn axis(&self) -> Option<usize>
        ensures { result ≡ def_axis self.now }
    {
        match self {
            GradeDef::Constant(_) => None,
            GradeDef::Linear(linear) => linear.axis(),
        }
    }

    #[tactic(auto, unfolding(crate::specs::Certified::planes))]
    pub fn planes(&self) -> Option<Planes>
        requires { DefFits self.now }
        ensures { result ≡ planes self.now }
    {
        match self {
            GradeDef::Constant(_) => None,
            GradeDef::Linear(linear) => linear.planes(),
        }
    }

    #[tactic(auto, unfolding(crate::specs::Certified::slope_bound))]
    pub fn slope_bound(&self) -> Slope
        requires { DefFits self.now }
        ensures { result ≡ slope_bound self.now }
    {
        match self {
            GradeDef::Constant(_) => Slope {
                rise: 0,
                distance: 1,
            },
            GradeDef::Linear(linear) => Slope {
                rise: linear.rise(),
                distance: linear.distance(),
            },
        }
    }

    #[tactic(auto, unfolding(crate::specs::Certified::certification))]
    pub fn check_certified(&self) -> Result<(), Refusal>
        requires { DefFits self.now }
        ensures { number_of result ≡ certification self.now }
    {
        match self {
            GradeDef::Constant(_) => Ok(()),
            GradeDef::Linear(linear) => linear.check_certified(),
        }
    }
}
