// A list of edits as one call, whatever form the list comes in: the tests of the whole list, the turn of each edit in the hall that its
// predecessors made, and the way back where one is refused.
#![tactic(auto)]

mod back;
mod in_turn;
mod turn;

pub use in_turn::edit_each;

// A change of the cost table: where, and the cost before it.
#[derive(Clone, Copy, Default)]
pub struct Change {
    pub spot: u32,
    pub cost: u32,
}

// What the edits so far came to: the sources that they touched, and their changes, to put them back. The changes are the first `done` of an
// array, and no ArrayVec, since a course is copied.
#[derive(Clone, Copy)]
pub struct Course {
    pub touched: u64,
    pub done: usize,
    pub changes: [Change; 32],
}
