// `facet_residual`: the residual over a triangle, about its centroid. It is equal to its definition and promises no enclosure.
// Where three terms are added, the axes are written out, left to right as in the definitions: a `sum` or a `fold` adds a zero first.
ghost use Rattle.std.specs.Prelude.{◌≡◌};
ghost use Rattle.calls.specs.Facet.{curvature, third, centroid_of, centroid, dot, squared, no_corners, joined, with_corner, corners};
ghost use Rattle.calls.specs.Facet.{facet_curved, facet_about, facet_residual};

use crate::Corners;
use gyroid::jets::minus;
use gyroid::{Gyroid, Jet};
use interval::Interval;
use interval::outward::{larger, smaller};

#[tactic(auto, unfolding(crate::specs::Facet::third))]
fn third(a: Interval, b: Interval, c: Interval) -> Interval
    ensures { result ≡ third a b c }
{
    (a + b + c) / Interval::point(3.0)
}

#[tactic(auto, unfolding(crate::specs::Facet::centroid_of))]
fn centroid_of(a: [Interval; 3], b: [Interval; 3], c: [Interval; 3]) -> [Interval; 3]
    ensures { result ≡ centroid_of a b c }
{
    std::array::from_fn(|i| third(a[i], b[i], c[i]))
}

#[tactic(auto, unfolding(crate::specs::Facet::centroid))]
fn centroid(c: [[Interval; 3]; 3]) -> [Interval; 3]
    ensures { result ≡ centroid c }
{
    centroid_of(c[0], c[1], c[2])
}

#[tactic(auto, unfolding(crate::specs::Facet::dot))]
fn dot(a: [Interval; 3], b: [Interval; 3]) -> Interval
    ensures { result ≡ dot a b }
{
    a[0] * b[0] + a[1] * b[1] + a[2] * b[2]
}

#[tactic(auto, unfolding(crate::specs::Facet::squared))]
fn squared(d: [Interval; 3]) -> Interval
    ensures { result ≡ squared d }
{
    d[0].square() + d[1].square() + d[2].square()
}

impl Corners {
    fn none() -> Corners
        ensures { result ≡ no_corners }
    {
        Corners {
            lo: 0.0,
            hi: 0.0,
            reach: 0.0,
        }
    }

    #[tactic(auto, unfolding(crate::specs::Facet::joined))]
    fn joined(self, rate: Interval, size: Interval) -> Corners
        ensures { result ≡ joined self rate size }
    {
        Corners {
            lo: smaller(self.lo, rate.lo),
            hi: larger(self.hi, rate.hi),
            reach: larger(self.reach, size.hi),
        }
    }

    // With the corner that lies at d from the centroid.
    #[tactic(auto, unfolding(crate::specs::Facet::with_corner))]
    fn with_corner(self, gradient: [Interval; 3], d: [Interval; 3]) -> Corners
        ensures { result ≡ with_corner self gradient d }
    {
        self.joined(dot(gradient, d), squared(d))
    }

    #[tactic(auto, unfolding(crate::specs::Facet::corners))]
    fn of(gradient: [Interval; 3], c: [[Interval; 3]; 3], m: [Interval; 3]) -> Corners
        ensures { result ≡ corners gradient c m }
    {
        // Written out: as a `fold` over the three corners the equation was not found.
        let a = Corners::none().with_corner(gradient, minus(c[0], m));
        let b = a.with_corner(gradient, minus(c[1], m));
        b.with_corner(gradient, minus(c[2], m))
    }
}

#[tactic(auto, unfolding(crate::specs::Facet::facet_curved))]
fn facet_curved(k: Interval, reach: f64) -> f64
    ensures { result ≡ facet_curved k reach }
{
    (Interval::point(0.5) * k * Interval::point(reach)).hi
}

#[tactic(auto, unfolding(crate::specs::Facet::facet_about))]
fn facet_about(k: Interval, jet: Jet, s: Corners) -> Interval
    ensures { result ≡ facet_about k jet s }
{
    let curved = facet_curved(k, s.reach);
    jet.value + Interval::new(s.lo - curved, s.hi + curved)
}

// An upper bound of the norm of the surface's Hessian.
#[tactic(auto, unfolding(crate::specs::Facet::curvature))]
pub fn curvature(leaf: &Gyroid) -> Interval
    ensures { result ≡ curvature leaf.now }
{
    leaf.wave_squared * Interval::point(3.5)
}

#[tactic(auto, unfolding(crate::specs::Facet::facet_residual))]
pub fn facet_residual(leaf: &Gyroid, c: [[Interval; 3]; 3]) -> Option<Interval>
    ensures { result ≡ facet_residual leaf.now c }
{
    let m = centroid(c);
    let jet = leaf.affine_jet(m)?;
    Some(facet_about(curvature(leaf), jet, Corners::of(jet.gradient, c, m)))
}
