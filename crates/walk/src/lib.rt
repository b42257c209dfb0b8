// The walk over a part box: a box is halved until it is settled, one tick cube, or at the last depth, and its cells are written to a lent
// table. Here stand the types. `walk` is the public call.
#![tactic(auto)]

pub mod ties; // the axis that ties go to
mod visit; // a box of the tree: what is done at it, and its halves
mod tally; // what a cell counts, and two halves
pub mod count; // a whole tree, counted
pub mod fill; // its cells, written
pub mod entered; // a call that passes the refusals before 13
mod run; // its walk
pub mod calls; // the public call

use gyroid::State;
use memory::Places;
use tree::{Axis, ShiftedBox};

// Where spans tie: to the axis of a graded level, which is the default, or to the lowest axis.
#[derive(Clone, Copy, Debug, PartialEq, Eq)]
pub enum TieRule {
    GradeAxis,
    LowestAxis,
}

// A box of the tree, and where its sides are looked up.
#[derive(Clone, Copy, Debug, PartialEq, Eq)]
pub struct Node {
    pub b: ShiftedBox,
    pub p: Places,
}

// A box is a cell, with its state, or it is halved.
#[derive(Clone, Copy, Debug, PartialEq, Eq)]
pub enum Step {
    Cell(State),
    Halves(Axis),
}

// The cells of a tree, its boxes, and the tick cubes of its inside cells.
#[derive(Clone, Copy, Debug, PartialEq, Eq)]
pub struct Counted {
    pub cells: usize,
    pub evaluated: usize,
    pub solid: usize,
}
