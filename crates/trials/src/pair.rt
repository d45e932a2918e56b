// Two stops, and all such pairs of a hall.
ghost use Rattle.std.specs.Prelude.{◌-◌};
ghost use Rattle.std.specs.Iterator.{at_most};

use calls::tables::cells;

#[derive(Clone, Copy, PartialEq, Eq)]
pub struct Pair {
    pub u: u64,
    pub v: u64,
}

impl Pair {
    pub fn new(u: u64, v: u64) -> Self {
        Pair { u, v }
    }

    // The pair whose entry stands at a place of a hall's tables.
    pub fn of_place(place: u64, stops: u64) -> Self {
        if stops == 0 {
            return Pair::new(0, 0);
        }
        Pair::new(place / stops, place % stops)
    }

    // Whether the hall has both stops.
    pub fn is_in(self, stops: u64) -> bool {
        self.u < stops && self.v < stops
    }

    // How far the stops are apart.
    pub fn apart(self) -> u64 {
        self.u.abs_diff(self.v)
    }

    pub fn is_forward(self) -> bool {
        self.u < self.v
    }

    pub fn is_same_stop(self) -> bool {
        self.u == self.v
    }
}

// All pairs of a hall's stops, each stop with itself too, in the order of the entries of its tables.
#[derive(Drop)]
pub struct Pairs {
    stops: u64,
    next: u64,
    end: u64,
}

impl Pairs {
    pub fn of(stops: u64) -> Self {
        Pairs {
            stops,
            next: 0,
            end: cells(stops) as u64,
        }
    }
}

impl Iterator for Pairs {
    type Item = Pair;

    ghost remaining = { λ s. at_most (s.end - s.next) };

    fn next(&mut self) -> Option<Pair> {
        let place = self.next;
        if self.end <= place {
            return None;
        }
        self.next = place + 1;
        Some(Pair::of_place(place, self.stops))
    }
}
