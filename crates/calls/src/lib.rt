// The calls, tables and lists of edits by value with the lengths at which they are lent, and answers. A new kind of edit, a field
// more in an answer or a table more that is lent is a change of this crate and of make_call.
#![tactic(auto)]

pub mod answer;
pub mod call;
pub mod compare;
pub mod entries;
pub mod lengths;
pub mod list;
pub mod tables;
