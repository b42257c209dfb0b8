// The level of a core: its entries, the exact grade over whole numbers, the same in intervals and in doubles, and the public call
// `grade_range`. Here stand the types. Each function equals its definition in specs/; proofs/ says what the answers hold for every
// rational point of a box.
#![tactic(auto)]

pub mod entries; // which entries of a level document 01 admits
mod refusals; // what document 01's table refuses of a level
mod vector; // whole-number vectors of three
mod ramp; // the linear level's exact answers
mod compiled; // the compiled grade and its exact answers
mod certified; // axis, planes, slope, and what certification refuses
pub mod intervals; // the grade in intervals, its constants kept
mod fast; // the grade in doubles
pub mod pieces; // the pieces by number
pub mod range; // the public call

use interval::Interval;

// A level as a description enters it, in whole ticks and level counts. Kind 0 is constant, 1 linear, 2 distance; it stays a number,
// since a public call takes any and refuses another by its own number.
#[derive(Clone, Copy, Debug, PartialEq, Eq)]
pub struct Grade {
    pub kind: i64,
    pub from: [i64; 3],
    pub to: [i64; 3],
    pub start: i64,
    pub end: i64,
}

// The linear level's numbers: its direction is to − from, and length_sq that one's square. Their sizes (`LinearFits`) are no part of the
// type: `Linear::new`, and the definition `linear_of` that it equals, take any ends, and anchors that may be one point.
#[derive(Clone, Copy, Debug, PartialEq, Eq)]
pub struct Linear {
    pub from: [i64; 3],
    pub direction: [i64; 3],
    pub length_sq: i64,
    pub start: i64,
    pub end: i64,
}

// A compiled grade. That its numbers keep their sizes (`DefFits`) is no part of the type either: `constant` takes any level.
#[derive(Clone, Copy, Debug, PartialEq, Eq)]
pub enum GradeDef {
    Constant(i64),
    Linear(Linear),
}

// Two numerators over one denominator, in level counts, never reduced.
#[derive(Clone, Copy, Debug, PartialEq, Eq)]
pub struct Bounds {
    pub low: i64,
    pub high: i64,
    pub over: i64,
}

// The piece of a linear level that holds over a whole box, with document 01's number of it.
#[derive(Clone, Copy, Debug, PartialEq, Eq)]
pub enum Piece {
    Start = 0, // the start's value, at or before the start plane
    Ramp = 1, // between the planes
    End = 2, // the end's value, at or beyond the end plane
}

// The axis along which the anchors differ, and the positions of `from` and `to` on it in ticks. The documents give the axis as a number.
#[derive(Clone, Copy, Debug, PartialEq, Eq)]
pub struct Planes {
    pub axis: usize,
    pub from: i64,
    pub to: i64,
}

// |end − start| in level counts over the anchor distance in ticks; 0 over 1 for a constant.
#[derive(Clone, Copy, Debug, PartialEq, Eq)]
pub struct Slope {
    pub rise: i64,
    pub distance: i64,
}

// The linear level's numbers as intervals, in millimetres and plain levels, with rise = end − start and slope its gradient: made once,
// so that nothing is divided again for each box but by length_sq.
#[derive(Clone, Copy, Debug, PartialEq)]
pub struct LinearIntervals {
    pub from: [Interval; 3],
    pub direction: [Interval; 3],
    pub length_sq: Interval,
    pub start: Interval,
    pub rise: Interval,
    pub slope: [Interval; 3],
}

// A compiled grade's constants as intervals.
#[derive(Clone, Copy, Debug, PartialEq)]
pub enum GradeIntervals {
    Constant(Interval),
    Linear(LinearIntervals),
}
