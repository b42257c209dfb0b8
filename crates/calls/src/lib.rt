// The public calls on a description, and what they answer beside the residual: over a triangle, the gradient and the Hessian, the surface in
// doubles. Here stand the types. Each function equals its definition in specs/, operation by operation.
#![tactic(auto)]

mod facet; // the residual over a triangle
mod hessian; // the gradient and the Hessian over a box
mod fast; // the surface in doubles
mod floats; // refusals of doubles
pub mod calls; // the public calls

use interval::Interval;

// Sine and cosine of one angle. Beside gyroid's `Circle`: at a bound `+`, `*` and `-` say relations, so the turn and the surface over both
// arithmetics would take a trait of functions through their definitions; and one generic struct alone, with each function twice, is no plainer.
#[derive(Clone, Copy, Debug, PartialEq)]
pub struct FastCircle {
    pub sine: f64,
    pub cosine: f64,
}

// The gradient of g − c and the Hessian of g. The Hessian is nine, row by row, for document 01 leaves it so: as three rows of three it would be
// laid out in a row again by whoever writes it.
#[derive(Clone, Copy, Debug, PartialEq)]
pub struct Derivatives {
    pub gradient: [Interval; 3],
    pub hessian: [Interval; 9],
}

// What the corners of a triangle give: the least and the greatest rate, and the largest squared distance from the centroid.
#[derive(Clone, Copy, Debug, PartialEq)]
pub struct Corners {
    pub lo: f64,
    pub hi: f64,
    pub reach: f64,
}
