// The layer report: for each layer of a run the tick squares in inside, outside and unsettled cells. One pass along the chain, in which each
// cell adds its area to the layers that it crosses.
#![tactic(auto)]

pub mod calls; // the public call
mod report; // what it writes
