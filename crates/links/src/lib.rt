// The links of a hall in words: masks of links and sets of stops; a hall and a measure as the work on rows takes them; and the steps
// on numbers that this work makes: choices without a branch, and sums of ways.
#![tactic(auto)]

pub mod counts;
pub mod masks;
pub mod measure;
pub mod network;
pub mod numbers;
pub mod sets;
