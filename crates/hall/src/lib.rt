// The calls that fill or judge a hall's tables: empty hall, work out and audit; and the door that every call on tables goes through.
#![tactic(auto)]

pub mod audit;
pub mod door;
pub mod empty_hall;
pub mod work_out;
