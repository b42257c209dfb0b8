// The table's slots, written to and read from lent bytes.
#![tactic(auto)]

use tree::ShiftedBox;

mod offsets; // where the numbers of a slot stand
pub mod get; // slot 0, and a cell's record
pub mod put; // zeros, slot 0 and the slot of a cell

// Slot 0: its first cell, the numbers of cells and of boxes evaluated, the solid and the open volume.
#[derive(Clone, Copy, Debug, PartialEq, Eq)]
pub struct Head {
    pub first: usize,
    pub cells: usize,
    pub evaluated: usize,
    pub solid: usize,
    pub open: usize,
}

// What a cell's slot holds: the slot of the cell behind it, or 0, and the cell itself. A state is a number here: what is read may be any
// byte, and the table stands below the gyroid, whose `State` is.
#[derive(Clone, Copy, Debug, PartialEq, Eq)]
pub struct Cell {
    pub next: usize,
    pub state: usize,
    pub depth: usize,
    pub b: ShiftedBox,
}
