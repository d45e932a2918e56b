// The entries of a hall's tables: lengths and places, valid costs, and sums of shares.
#![tactic(auto)]

pub mod costs;
pub mod places;
pub mod scores;
