// Program `cells` but for its input and output: the text that it reads, the text that it prints, and the way from one to the other.
#![tactic(auto)]

pub mod parse; // the line of 17 numbers
pub mod print; // the table's listing, or a refusal
pub mod cells; // from one to the other: read, walk, print
