// What the programs share that read lists: bytes, read until a buffer is full or the list ends, and the cases of a list, tried and counted.
#![tactic(auto)]

mod cases; // the cases of a list
mod reading; // bytes of a list

pub use cases::{Tally, over, tallied};
pub use reading::{Stop, begin, fill, fill_front, read_full};
