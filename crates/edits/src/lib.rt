// The edit of a link: insert, cheapen, raise and delete.
#![tactic(auto)]

pub mod audited;
pub mod edit;
