// `derivatives`: the values at a box's centre, widened by the next derivative's bound times the half-widths.
// The axes are written out: each has its own coefficients, or terms are added left to right as in the definitions, so that a map is no plainer.
ghost use Rattle.std.specs.Prelude.{◌≡◌};
ghost use Rattle.calls.specs.Derivatives.{widened, across, wide_gradient, hessian_spread};
ghost use Rattle.calls.specs.Derivatives.{opposite, on_diagonal, off_diagonal, hessian_at, derivatives};

use crate::Derivatives;
use grade::Piece;
use gyroid::expand::{centre, radii};
use gyroid::jets::gradient_at;
use gyroid::turns::symmetric;
use gyroid::{Gyroid, Surface, Waves};
use interval::Interval;

#[tactic(auto, unfolding(crate::specs::Derivatives::widened))]
fn widened(v: Interval, s: f64) -> Interval
    ensures { result ≡ widened v s }
{
    v + symmetric(s)
}

#[tactic(auto, unfolding(crate::specs::Derivatives::across))]
fn across(k2: Interval, a: f64, b: f64, c: f64, r: [Interval; 3]) -> f64
    ensures { result ≡ across k2 a b c r }
{
    let x = k2 * Interval::point(a) * r[0];
    let y = k2 * Interval::point(b) * r[1];
    let z = k2 * Interval::point(c) * r[2];
    (Interval::point(0.0) + x + y + z).hi
}

#[tactic(auto, unfolding(crate::specs::Derivatives::wide_gradient))]
fn wide_gradient(
    g: [Interval; 3],
    slope: [Interval; 3],
    k2: Interval,
    r: [Interval; 3],
) -> [Interval; 3]
    ensures { result ≡ wide_gradient g slope k2 r }
{
    let x = widened(g[0] - slope[0], across(k2, 2.0, 1.0, 1.0, r));
    let y = widened(g[1] - slope[1], across(k2, 1.0, 2.0, 1.0, r));
    let z = widened(g[2] - slope[2], across(k2, 1.0, 1.0, 2.0, r));
    [x, y, z]
}

#[tactic(auto, unfolding(crate::specs::Derivatives::hessian_spread))]
fn hessian_spread(k: Interval, k2: Interval, r: [Interval; 3]) -> f64
    ensures { result ≡ hessian_spread k k2 r }
{
    let k3 = (k2 * k).hi;
    let reach = (r[0] + r[1] + r[2]).hi;
    (Interval::point(2.0 * k3) * Interval::point(reach)).hi
}

// 0 − v k², widened.
#[tactic(auto, unfolding(crate::specs::Derivatives::opposite))]
fn opposite(v: Interval, k2: Interval, s: f64) -> Interval
    ensures { result ≡ opposite v k2 s }
{
    widened(Interval::point(0.0) - v * k2, s)
}

#[tactic(auto, unfolding(crate::specs::Derivatives::on_diagonal))]
fn on_diagonal(a: Interval, b: Interval, c: Interval, d: Interval, k2: Interval, s: f64) -> Interval
    ensures { result ≡ on_diagonal a b c d k2 s }
{
    opposite(a * b + c * d, k2, s)
}

#[tactic(auto, unfolding(crate::specs::Derivatives::off_diagonal))]
fn off_diagonal(a: Interval, b: Interval, k2: Interval, s: f64) -> Interval
    ensures { result ≡ off_diagonal a b k2 s }
{
    opposite(a * b, k2, s)
}

#[tactic(auto, unfolding(crate::specs::Derivatives::hessian_at))]
fn hessian_at(surface: Surface, w: &Waves, k2: Interval, s: f64) -> [Interval; 9]
    ensures { result ≡ hessian_at surface w.now k2 s }
{
    let Waves { x, y, z } = w;
    match surface {
        Surface::Network => {
            let xx = on_diagonal(x.sine, y.cosine, z.sine, x.cosine, k2, s);
            let yy = on_diagonal(y.sine, z.cosine, x.sine, y.cosine, k2, s);
            let zz = on_diagonal(z.sine, x.cosine, y.sine, z.cosine, k2, s);
            let xy = off_diagonal(x.cosine, y.sine, k2, s);
            let xz = off_diagonal(x.sine, z.cosine, k2, s);
            let yz = off_diagonal(y.cosine, z.sine, k2, s);
            [xx, xy, xz, xy, yy, yz, xz, yz, zz]
        }
        Surface::Primitive => {
            let xx = opposite(x.cosine, k2, s);
            let yy = opposite(y.cosine, k2, s);
            let zz = opposite(z.cosine, k2, s);
            let off = widened(Interval::point(0.0), s);
            [xx, off, off, off, yy, off, off, off, zz]
        }
    }
}

#[tactic(auto, unfolding(crate::specs::Derivatives::derivatives))]
pub fn derivatives(leaf: &Gyroid, world: [Interval; 3], piece: Piece) -> Option<Derivatives>
    ensures { result ≡ derivatives leaf.now world piece }
{
    let waves = leaf.waves(centre(world))?;
    let k = leaf.wave;
    let k2 = leaf.wave_squared;
    let slope = leaf.intervals.piece_gradient(piece);
    let r = radii(world);
    let g = gradient_at(leaf.surface, &waves, k);
    let s = hessian_spread(k, k2, r);
    Some(Derivatives {
        gradient: wide_gradient(g, slope, k2, r),
        hessian: hessian_at(leaf.surface, &waves, k2, s),
    })
}
