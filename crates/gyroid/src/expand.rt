// The surface over a box less a level, to second order about the centre.
ghost use Rattle.std.specs.Prelude.{◌≡◌};
ghost use Rattle.gyroid.specs.Residual.{centre, reach};
ghost use Rattle.gyroid.specs.InUse.{radii};
ghost use Rattle.gyroid.specs.FunctionsInUse.{radius, spread, bracket_at, bound, about_centre};

use crate::Surface;
use crate::jets::minus;
use crate::turns::symmetric;
use interval::Interval;
use interval::outward::larger;
use interval::sums::difference_high;

#[tactic(auto, unfolding(crate::specs::Residual::centre))]
pub fn centre(w: [Interval; 3]) -> [Interval; 3]
    ensures { result ≡ centre w }
{
    w.map(|b| Interval::point(b.mid()))
}

// The half-width of an interval.
#[tactic(auto, unfolding(crate::specs::Residual::radius))]
pub fn radius(b: Interval) -> f64
    ensures { result ≡ radius b }
{
    let m = b.mid();
    let above = difference_high(b.hi, m);
    let below = difference_high(m, b.lo);
    larger(above, below)
}

#[tactic(auto, unfolding(crate::specs::Residual::radii))]
pub fn radii(w: [Interval; 3]) -> [Interval; 3]
    ensures { result ≡ radii w }
{
    w.map(|b| Interval::point(radius(b)))
}

#[tactic(auto, unfolding(crate::specs::Residual::reach))]
#[inline(always)]
fn reach(d: Interval, r: Interval) -> Interval
    ensures { result ≡ reach d r }
{
    Interval::point(d.magnitude()) * r
}

// How far the first-order term reaches, for a gradient d and half-widths r. Axis by axis: of two arrays an iterator is no plainer.
#[tactic(auto, unfolding(crate::specs::Residual::spread))]
#[inline(always)]
fn spread(d: [Interval; 3], r: [Interval; 3]) -> Interval
    ensures { result ≡ spread d r }
{
    Interval::point(0.0) + reach(d[0], r[0]) + reach(d[1], r[1]) + reach(d[2], r[2])
}

// The half-widths' part of the quadratic term of Taylor's theorem.
#[tactic(auto, unfolding(crate::specs::Residual::bracket_at))]
#[inline(always)]
pub fn bracket_at(surface: Surface, x: Interval, y: Interval, z: Interval) -> Interval
    ensures { result ≡ bracket_at surface x y z }
{
    let squares = x.square() + y.square() + z.square();
    match surface {
        Surface::Network => squares + x * y + y * z + z * x,
        Surface::Primitive => squares * Interval::point(0.5),
    }
}

#[tactic(auto, unfolding(crate::specs::Residual::bound))]
#[inline(always)]
fn bound(second: Interval, d: [Interval; 3], r: [Interval; 3]) -> f64
    ensures { result ≡ bound second d r }
{
    (spread(d, r) + second).hi
}

// The surface over a box, of this second-order term and this value and gradient at the centre, less a level that is `level` there and has the
// gradient `slope`.
#[inline(always)]
pub fn about_centre(
    second: Interval,
    value: Interval,
    gradient: [Interval; 3],
    level: Interval,
    slope: [Interval; 3],
    r: [Interval; 3],
) -> Interval
    ensures { result ≡ about_centre second value gradient level slope r }
{
    let reach = bound(second, minus(gradient, slope), r);
    value - level + symmetric(reach)
}
