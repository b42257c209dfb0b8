// What the sides of boxes give to their residuals, remembered: a walk meets the same side, along an axis, in many boxes, and its part depends on
// that side alone. Here stand the types; a new memory remembers nothing.
#![tactic(auto)]

mod place; // where the sides of a box are looked up
mod slots; // the slots: a side is looked up there, and its part made where another stands
mod second; // the second-order term of a box, looked up by its spans
mod states; // a new memory, and the state of a box by it

ghost use Rattle.memory.specs.Memory.{Remembers};
ghost use Rattle.std.proofs.Props.{props};

use gyroid::{Gyroid, Part};
use interval::Interval;
use tree::Side;

// Where the three sides of a box are looked up. Any numbers will do, since the side that stands there decides.
#[derive(Clone, Copy, Debug, PartialEq, Eq)]
pub struct Places {
    pub x: usize,
    pub y: usize,
    pub z: usize,
}

// A side, and the part that the slot's axis gives over it, if it gives one.
#[derive(Clone, Copy)]
pub struct Slot {
    pub side: Side,
    pub part: Option<Part>,
}

// The second-order term of the boxes that have these spans.
#[derive(Clone, Copy, Debug, PartialEq)]
pub struct Term {
    pub spans: [usize; 3],
    pub value: Interval,
}

// A leaf, and what it gave: 64 slots for the sides of each axis, those of x first, and 32 second-order terms. What is lent a `&mut Memory` says by
// a clause that the leaf stays: a value behind a `&mut` may be replaced whole.
#[derive(Drop)]
pub struct Memory {
    pub leaf: Gyroid,
    slots: [Option<Slot>; 192],
    terms: [Option<Term>; 32],
    ghost remembers: { Remembers leaf slots terms } by { Prim.hlevel props },
}
