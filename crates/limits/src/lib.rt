// What all layers share of the documents' refusals: their numbers, how one test refuses, and the limits of coordinates.
#![tactic(auto)]

pub mod refusals; // the documents' numbers, and a test that refuses
pub mod ticks; // which coordinates are admitted
