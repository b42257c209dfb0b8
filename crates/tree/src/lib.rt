// Boxes of whole ticks as the walk holds them, and the halves of one. A coordinate x is kept as x + 2^20, a whole number from 0 to 2^21;
// the contracts speak of the signed box that a box stands for.
#![tactic(auto)]

pub mod shift; // a coordinate to what is kept of it and back
mod sides; // how far a side reaches, its halves
mod halves; // where a box is halved, its halves
mod size; // one tick cube, the number of tick cubes

#[derive(Clone, Copy, Debug, PartialEq, Eq)]
pub enum Axis {
    X,
    Y,
    Z,
}

// The half of a box, or of a side, that is meant.
#[derive(Clone, Copy, Debug, PartialEq, Eq)]
pub enum Half {
    Lower,
    Upper,
}

// What a box has of one axis. `low` ≤ `high` stays a `requires` of the methods: `ShiftedBox::of` takes ends in any order.
#[derive(Clone, Copy, Debug, PartialEq, Eq)]
pub struct Side {
    pub low: usize,
    pub high: usize,
}

// `Good` stays a `requires` of the methods: `of` takes any box within the ticks, and a half of one tick cube is empty.
#[derive(Clone, Copy, Debug, PartialEq, Eq)]
pub struct ShiftedBox {
    pub x: Side,
    pub y: Side,
    pub z: Side,
}
