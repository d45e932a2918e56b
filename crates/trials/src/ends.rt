// The choice of the two stops of a call.
use super::chance::Chance;
use super::costs::Costs;
use super::pair::Pair;
use book::Kind;
use calls::call::Name;

// Whether the link of an edit has to be there, or not.
#[derive(Clone, Copy, PartialEq, Eq)]
pub enum Wish {
    Absent,
    Present,
}

impl Wish {
    // What a call may be accepted for; no matter which, where it is no edit.
    fn of(name: Name) -> Self {
        match name {
            Name::Edit(Kind::Insert) => Wish::Absent,
            _ => Wish::Present,
        }
    }

    // Whether a link of this cost fits, 0 for none.
    pub fn fits(self, cost: u64) -> bool {
        match self {
            Wish::Absent => cost == 0,
            Wish::Present => 0 < cost,
        }
    }
}

// A stop: rarely one that the hall has not.
fn stop(chance: &mut Chance, stops: u64) -> u64 {
    if !chance.once_in(24) {
        return chance.draw(stops);
    }
    if chance.once_in(2) { stops } else { 4294967296 }
}

// The first stop and the last.
fn outer(stops: u64) -> Pair {
    Pair::new(0, stops.saturating_sub(1))
}

// Two stops: often the first and the last or the first two, rarely the same twice.
fn two(chance: &mut Chance, stops: u64) -> Pair {
    let x = chance.draw(12);
    if x < 2 {
        return Pair::new(0, 1);
    }
    if x < 4 {
        return outer(stops);
    }
    let u = stop(chance, stops);
    let v = stop(chance, stops);
    if x == 4 || u != v {
        return Pair::new(u, v);
    }
    outer(stops)
}

// Stops that the hall has not both. Cut to 32 bits they are the first and the last; or their entry, if it were read, is that of the
// second and the last.
fn past(chance: &mut Chance, stops: u64) -> Pair {
    let last = outer(stops).v;
    if chance.once_in(2) {
        return Pair::new(4294967296, last);
    }
    Pair::new(0, stops.wrapping_add(last))
}

// The stops of a route list: often the first and the last, now and then the same twice, and now and then none of the hall.
fn route_ends(chance: &mut Chance, stops: u64) -> Pair {
    let x = chance.draw(12);
    if x < 6 {
        return outer(stops);
    }
    if x == 6 {
        return past(chance, stops);
    }
    let s = stop(chance, stops);
    if x == 7 {
        return Pair::new(s, s);
    }
    Pair::new(s, stop(chance, stops))
}

// Two stops for an edit: where they do not suit it, drawn anew up to seven times.
fn edit_ends(chance: &mut Chance, wish: Wish, costs: &Costs) -> Pair {
    let mut pair = two(chance, costs.stops);
    for _ in 0..chance.draw(8) {
        if !wish.fits(costs.at(pair)) {
            pair = two(chance, costs.stops);
        }
    }
    pair
}

// The two stops of a call in a hall with these costs.
pub fn ends(chance: &mut Chance, name: Name, costs: &Costs) -> Pair {
    match name {
        Name::ListRoutes => route_ends(chance, costs.stops),
        _ => edit_ends(chance, Wish::of(name), costs),
    }
}
