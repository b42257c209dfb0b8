// Where the numbers of a slot stand, in bytes from its start. Slot 0; the slot of the first cell is at the start.
pub const CELLS: usize = 4;

pub const EVALUATED: usize = 8;

pub const SOLID: usize = 12;

pub const OPEN: usize = 20;

pub const HEAD_ZEROS: usize = 28; // four zeros

// A cell's record; the next slot is at the start.
pub const STATE: usize = 4;

pub const DEPTH: usize = 5; // then two zeros

pub const COORDINATES: usize = 8; // three lows, three highs
