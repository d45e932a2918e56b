// Edits by their kind.
use book::{Edit, Kind};

fn edit(kind: Kind, u: u64, v: u64, cost: u64) -> Edit {
    Edit { kind, u, v, cost }
}

pub fn insert(u: u64, v: u64, cost: u64) -> Edit {
    edit(Kind::Insert, u, v, cost)
}

pub fn cheapen(u: u64, v: u64, cost: u64) -> Edit {
    edit(Kind::Cheapen, u, v, cost)
}

pub fn raise(u: u64, v: u64, cost: u64) -> Edit {
    edit(Kind::Raise, u, v, cost)
}

pub fn delete(u: u64, v: u64) -> Edit {
    edit(Kind::Delete, u, v, 0)
}
