// `residual` one axis at a time: what an axis gives depends on the side of the box there alone, so that a walk can remember it. Parts and leaf are
// read where they stand, behind references.
ghost use Rattle.std.specs.Prelude.{◌≡◌, ◌<◌, Some};
ghost use Rattle.gyroid.specs.Parts.{no_shares, held_on};
ghost use Rattle.gyroid.specs.Residual.{state_of};
ghost use Rattle.gyroid.specs.FunctionsInUse.{expansion, second_of, shares, part, level_about, joined_about, joined_of, joined};

use crate::expand::{about_centre, bracket_at, radius};
use crate::floats::finite;
use crate::jets::{gradient_at, value_at};
use crate::{Gyroid, LevelAbout, Part, Shares, State, Waves};
use grade::intervals::{piece_of, zeros};
use grade::{GradeIntervals, Piece};
use interval::Interval;

impl Shares {
    fn none() -> Shares
        ensures { result ≡ no_shares }
    {
        let zero = Interval::point(0.0);
        Shares {
            along: zero,
            middle: zero,
        }
    }
}

// Here and in `part` an axis is a number, a place in the array of a box, as document 01's `planes` answers it.
#[tactic(auto, unfolding(crate::specs::Parts::shares))]
fn shares(levels: &GradeIntervals, axis: usize, b: Interval, m: Interval) -> Shares
    requires { axis < 3 }
    ensures { result ≡ shares levels.now axis b m }
{
    match levels {
        GradeIntervals::Constant(_) => Shares::none(),
        GradeIntervals::Linear(linear) => Shares {
            along: linear.along_axis(axis, b),
            middle: linear.along_axis(axis, m),
        },
    }
}

// t at the centre of a box that is one piece, m being what it is without the ends.
pub fn held_on(piece: Piece, m: Interval) -> Interval
    ensures { result ≡ held_on piece m }
{
    match piece {
        Piece::Ramp => m,
        Piece::Start | Piece::End => m.clamp01(),
    }
}

// The level about the centre of the box that has these shares. t is formed once, for the piece and for the range.
#[tactic(auto, unfolding(crate::specs::Parts::level_about))]
#[inline(always)]
fn level_about(levels: &GradeIntervals, x: Shares, y: Shares, z: Shares) -> LevelAbout
    ensures { result ≡ level_about levels.now x y z }
{
    match levels {
        GradeIntervals::Constant(level) => LevelAbout::OnePiece {
            at: *level,
            slope: zeros(),
        },
        GradeIntervals::Linear(linear) => {
            let t = linear.parameter_of(x.along, y.along, z.along);
            let m = linear.parameter_of(x.middle, y.middle, z.middle);
            match piece_of(t) {
                Some(piece) => LevelAbout::OnePiece {
                    at: linear.level_of(held_on(piece, m)),
                    slope: levels.piece_gradient(piece),
                },
                None => LevelAbout::Across {
                    range: linear.level_of(t.clamp01()),
                },
            }
        }
    }
}

impl Gyroid {
    #[tactic(auto, unfolding(crate::specs::Parts::part))]
    pub fn part(&self, axis: usize, b: Interval) -> Option<Part>
        requires { axis < 3 }
        ensures { result ≡ part self.now axis b }
    {
        if !finite(b) {
            return None;
        }
        let m = Interval::point(b.mid());
        let circle = self.turn(m * self.turns)?;
        Some(Part {
            radius: radius(b),
            circle,
            shares: shares(&self.intervals, axis, b, m),
        })
    }

    // The second-order term of a box of these half-widths.
    #[tactic(auto, unfolding(crate::specs::Parts::second_of, crate::specs::Residual::second_order))]
    pub fn second_order(&self, rx: f64, ry: f64, rz: f64) -> Interval
        ensures { result ≡ second_of self.now rx ry rz }
    {
        let x = Interval::point(rx);
        let y = Interval::point(ry);
        let z = Interval::point(rz);
        self.wave_squared * bracket_at(self.surface, x, y, z)
    }

    // The surface less a level that is `level` at the centre and has the gradient `slope`; `second` is the second-order term. Its clause
    // stands three times: a walk remembers the term apart from the parts, and a struct of the four, made for each call, would be no plainer.
    #[tactic(auto, unfolding(crate::specs::Parts::joined_about))]
    #[inline(always)]
    fn joined_about(
        &self,
        x: &Part,
        y: &Part,
        z: &Part,
        second: Interval,
        level: Interval,
        slope: [Interval; 3],
    ) -> Interval
        requires { second ≡ second_of self.now x.now.radius y.now.radius z.now.radius }
        ensures { result ≡ joined_about self.now x.now y.now z.now level slope }
    {
        let w = Waves {
            x: x.circle,
            y: y.circle,
            z: z.circle,
        };
        let value = value_at(self.surface, &w);
        let gradient = gradient_at(self.surface, &w, self.wave);
        let r = [
            Interval::point(x.radius),
            Interval::point(y.radius),
            Interval::point(z.radius),
        ];
        about_centre(second, value, gradient, level, slope, r)
    }

    // The residual over the box whose parts these are; `second` is its second-order term.
    #[tactic(auto, unfolding(crate::specs::Parts::joined_of))]
    #[inline(always)]
    pub fn residual_of_parts(&self, x: &Part, y: &Part, z: &Part, second: Interval) -> Interval
        requires { second ≡ second_of self.now x.now.radius y.now.radius z.now.radius }
        ensures { result ≡ joined_of self.now x.now y.now z.now }
    {
        // Taken apart for one call of `joined_about`: with a call in each arm it is inlined twice, and a walk is 3% slower.
        let zero = Interval::point(0.0);
        let (at, slope, range) = match level_about(&self.intervals, x.shares, y.shares, z.shares) {
            LevelAbout::OnePiece { at, slope } => (at, slope, None),
            LevelAbout::Across { range } => (zero, zeros(), Some(range)),
        };
        let residual = self.joined_about(x, y, z, second, at, slope);
        match range {
            None => residual,
            Some(range) => residual - range,
        }
    }

    // The residual over the box whose parts these are, of any three; none where one is none.
    pub fn joined(&self, x: Option<Part>, y: Option<Part>, z: Option<Part>) -> Option<Interval>
        ensures { result ≡ joined self.now x y z }
    {
        let (x, y, z) = (x?, y?, z?);
        let second = self.second_order(x.radius, y.radius, z.radius);
        Some(self.residual_of_parts(&x, &y, &z, second))
    }

    // The state of the box whose parts these are; `second` is its second-order term.
    #[inline(always)]
    pub fn state_of_parts(&self, x: &Part, y: &Part, z: &Part, second: Interval) -> State
        requires { second ≡ second_of self.now x.now.radius y.now.radius z.now.radius }
        ensures { result ≡ state_of (joined self.now (Some x.now) (Some y.now) (Some z.now)) }
    {
        State::of(Some(self.residual_of_parts(x, y, z, second)))
    }

    // The residual over a box of a level that is `level` at the centre and has the gradient `slope`.
    #[tactic(auto, using(crate::proofs::PartLaws::expansion_joined))]
    pub fn expansion(
        &self,
        world: [Interval; 3],
        level: Interval,
        slope: [Interval; 3],
    ) -> Option<Interval>
        ensures { result ≡ expansion self.now world level slope }
    {
        let x = self.part(0, world[0])?;
        let y = self.part(1, world[1])?;
        let z = self.part(2, world[2])?;
        let second = self.second_order(x.radius, y.radius, z.radius);
        Some(self.joined_about(&x, &y, &z, second, level, slope))
    }
}
