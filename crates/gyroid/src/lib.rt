// The surfaces over a description: what refuses it, the leaf that it compiles to, the jet and the residual over a box. Here stand the types.
// Each function equals its definition in specs/, operation by operation. `#[inline(always)]` stands on what a walk works out for each box from
// its parts: called one by one, these functions make it a fifth slower.
#![tactic(auto)]

pub mod entries; // a description's limits and refusals
pub mod leaf; // the compiled leaf
pub mod turns; // sine and cosine of one turn coordinate
pub mod jets; // the value and the gradient at a point
pub mod expand; // the second-order expansion over a box
pub mod parts; // what one axis of a box gives to the residual, and the three joined
mod residuals; // the residual, and the state that it gives a box
pub mod floats; // doubles that are not infinite

use grade::{Grade, GradeDef, GradeIntervals};
use interval::Interval;

// The frame's rotation as a quaternion, and its translation in ticks. Only the part frame is accepted.
#[derive(Clone, Copy, Debug, PartialEq, Eq)]
pub struct Frame {
    pub w: i64,
    pub x: i64,
    pub y: i64,
    pub z: i64,
    pub translation: [i64; 3],
}

// What a planner enters, in whole ticks and level counts. Kind 0 is network, 1 sheet, 2 primitive: any number is taken, and refused as document 01
// says.
#[derive(Clone, Copy, Debug, PartialEq, Eq)]
pub struct Description {
    pub period: i64,
    pub kind: i64,
    pub level: Grade,
    pub frame: Frame,
}

// A kind's surface, with X = 2πx/a and likewise Y and Z.
#[derive(Clone, Copy, Debug, PartialEq, Eq)]
pub enum Surface {
    Network, // sin X cos Y + sin Y cos Z + sin Z cos X
    Primitive, // cos X + cos Y + cos Z
}

// A compiled leaf. Lengths are in millimetres and levels plain. `fast_level` is a constant's; of a ramp it is 0, which nothing reads: an Option
// would be no plainer, since who reads it has told the kinds apart.
#[derive(Clone, Copy, Debug, PartialEq)]
pub struct Gyroid {
    pub turns: Interval, // 1/a
    pub two_pi: Interval,
    pub wave: Interval, // 2π/a
    pub wave_squared: Interval,
    pub sine: [Interval; 9],
    pub cosine: [Interval; 9],
    pub tail_sine: f64,
    pub tail_cosine: f64,
    pub lipschitz: Interval,
    pub fast_turns: f64,
    pub fast_level: f64,
    pub fast_lipschitz: f64,
    pub grade: GradeDef,
    pub intervals: GradeIntervals,
    pub surface: Surface,
}

// Sine and cosine of one angle.
#[derive(Clone, Copy, Debug, PartialEq)]
pub struct Circle {
    pub sine: Interval,
    pub cosine: Interval,
}

// Sine and cosine of the three turn coordinates of a point.
#[derive(Clone, Copy, Debug, PartialEq)]
pub struct Waves {
    pub x: Circle,
    pub y: Circle,
    pub z: Circle,
}

// A value and its gradient.
#[derive(Clone, Copy, Debug, PartialEq)]
pub struct Jet {
    pub value: Interval,
    pub gradient: [Interval; 3],
}

// An axis' share of a linear level's t, over the interval of a box on it and at the interval's middle. Of a constant level both are zero, and
// nothing reads them: an Option would be tested again for each box.
#[derive(Clone, Copy, Debug, PartialEq)]
pub struct Shares {
    pub along: Interval,
    pub middle: Interval,
}

// What the interval of a box on one axis gives to the residual: half its width, sine and cosine at its middle, and the level's shares.
#[derive(Clone, Copy, Debug, PartialEq)]
pub struct Part {
    pub radius: f64,
    pub circle: Circle,
    pub shares: Shares,
}

// The level about the centre of a box.
#[derive(Clone, Copy, Debug, PartialEq)]
pub enum LevelAbout {
    OnePiece { at: Interval, slope: [Interval; 3] }, // its value there and its slope
    Across { range: Interval }, // across an anchor plane: the level over the whole box
}

// The mark that a residual gives a box. The table's numbers are the discriminants.
#[derive(Clone, Copy, Debug, PartialEq, Eq)]
pub enum State {
    Inside = 1,
    Outside = 2,
    Unsettled = 3,
}
