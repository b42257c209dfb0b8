// `residual`, `affine_residual`, and `box_state`, the mark that a residual gives a box.
ghost use Rattle.std.specs.Prelude.{◌≡◌};
ghost use Rattle.gyroid.specs.Residual.{state_of};
ghost use Rattle.gyroid.specs.InUse.{residual, affine_residual, box_state};

use crate::expand::centre;
use crate::{Gyroid, State};
use interval::Interval;

impl State {
    // The mark that a residual gives its box.
    #[inline(always)]
    pub fn of(residual: Option<Interval>) -> State
        ensures { result ≡ state_of residual }
    {
        match residual {
            Some(v) if v.lo > 0.0 => State::Outside,
            Some(v) if v.hi < 0.0 => State::Inside,
            _ => State::Unsettled,
        }
    }
}

impl Gyroid {
    // A part that is not found ends it: the others are not worked out.
    #[tactic(auto, using(crate::proofs::PartLaws::residual_joined))]
    pub fn residual(&self, world: [Interval; 3]) -> Option<Interval>
        ensures { result ≡ residual self.now world }
    {
        let x = self.part(0, world[0])?;
        let y = self.part(1, world[1])?;
        let z = self.part(2, world[2])?;
        self.joined(Some(x), Some(y), Some(z))
    }

    // The affine extension of a constant level is the level, without a gradient.
    #[tactic(auto, unfolding(crate::specs::Residual::affine_residual))]
    pub fn affine_residual(&self, world: [Interval; 3]) -> Option<Interval>
        ensures { result ≡ affine_residual self.now world }
    {
        let level = self.intervals.affine(centre(world));
        self.expansion(world, level, self.intervals.gradient())
    }

    #[tactic(auto, unfolding(crate::specs::Residual::box_state))]
    pub fn box_state(&self, world: [Interval; 3]) -> State
        ensures { result ≡ box_state self.now world }
    {
        State::of(self.residual(world))
    }
}
