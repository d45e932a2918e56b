// Passing times: those that a call brings, and what a table of them is.
use super::chance::Chance;
use super::costs::Costs;
use super::pair::{Pair, Pairs};
use super::take_over::take_over;
use calls::call::Name;
use calls::tables::{self, Tables};

pub const STOPS: usize = 7;

// The largest passing time, which is the largest cost too.
const LARGEST: u32 = 65535;

// The passing times of a hall of at most seven stops.
#[derive(Clone, Copy)]
pub struct Passing {
    pub stops: u64,
    pub times: [u32; STOPS],
}

// The passing times of a new hall: zeros, 0 to 2, ones, twos, or some of the largest.
#[derive(Clone, Copy)]
enum Manner {
    Zeros,
    Small,
    Ones,
    Twos,
    SomeLargest,
}

// How many of 12 draws give each; the last one gives some of the largest.
const MANNERS: [(u64, Manner); 4] = [
    (5, Manner::Zeros),
    (1, Manner::Small),
    (3, Manner::Ones),
    (2, Manner::Twos),
];

impl Manner {
    // The passing time of a stop.
    fn time(self, chance: &mut Chance) -> u32 {
        match self {
            Manner::Zeros => 0,
            Manner::Small => chance.draw(3) as u32,
            Manner::Ones => 1,
            Manner::Twos => 2,
            Manner::SomeLargest => if chance.once_in(3) {
                LARGEST
            } else {
                chance.draw(2) as u32
            },
        }
    }
}

// Whether a call brings the passing times: the host sets them right before it, and back if it is refused. Every other call is
// lent the present ones.
fn brings(name: Name) -> bool {
    matches!(name, Name::EmptyHall | Name::WorkOut | Name::ImageRead)
}

// A passing time that no hall has.
pub fn too_large(chance: &mut Chance) -> u32 {
    chance.pick(&[u32::MAX, 65537, 65536])
}

// The passing times that a call brings, now and then one of them too large; those of an image are mostly the present ones, so
// that it gives back its hall.
pub fn brought(chance: &mut Chance, name: Name, present: &Passing) -> Option<Passing> {
    if !brings(name) {
        return None;
    }
    let anew = chance.once_in(3);
    if matches!(name, Name::ImageRead) && !anew {
        return Some(*present);
    }
    let mut passing = Passing::drawn(chance, present.stops);
    if chance.once_in(12) {
        passing.spoil(chance);
    }
    Some(passing)
}

impl Passing {
    pub fn none(stops: u64) -> Self {
        Passing {
            stops,
            times: [0; STOPS],
        }
    }

    // Those of tables of a hall of so many stops.
    pub fn of(stops: u64, tables: &Tables) -> Self {
        let mut passing = Passing::none(stops);
        take_over(&tables.passing, STOPS, &mut passing.times);
        passing
    }

    // Puts them into tables.
    pub fn put_into(&self, tables: &mut Tables) {
        let count = tables::stops(self.stops);
        take_over(&self.times, count, &mut tables.passing);
    }

    // Those of a new hall.
    pub fn drawn(chance: &mut Chance, stops: u64) -> Self {
        let mut passing = Passing::none(stops);
        let manner = chance.weighed(12, &MANNERS, Manner::SomeLargest);
        for time in passing.times.iter_mut().take(tables::stops(stops)) {
            *time = manner.time(chance);
        }
        passing
    }

    // Makes one too large.
    fn spoil(&mut self, chance: &mut Chance) {
        let v = chance.draw(self.stops) as usize;
        let time = too_large(chance);
        if v < STOPS {
            self.times[v] = time;
        }
    }

    // Whether a stop has a passing time above 0.
    pub fn has_some(&self) -> bool {
        let count = tables::stops(self.stops);
        self.times.iter().take(count).any(|time| 0 < *time)
    }

    // Whether one is too large.
    pub fn is_bad(&self) -> bool {
        let count = tables::stops(self.stops);
        self.times.iter().take(count).any(|time| LARGEST < *time)
    }

    // How long it takes to pass all stops between two.
    fn between(&self, pair: Pair) -> u64 {
        let mut sum = 0u64;
        for (stop, time) in self.times.iter().enumerate() {
            if pair.u < stop as u64 && (stop as u64) < pair.v {
                sum = sum.wrapping_add(u64::from(*time));
            }
        }
        sum
    }

    // The cost of a link that takes as long as links of 1 over the stops between; where that is no cost, their distance.
    fn tie(&self, pair: Pair) -> u64 {
        let apart = pair.apart();
        let cost = apart.wrapping_add(self.between(pair));
        if u64::from(LARGEST) < cost {
            apart
        } else {
            cost
        }
    }

    // The costs with which all routes forward tie.
    pub fn ties(&self) -> Costs {
        let mut costs = Costs::none(self.stops);
        for pair in Pairs::of(self.stops) {
            costs.put(pair, self.tie(pair));
        }
        costs
    }

    // Gives the links that cost the distance of their stops the cost of a tie.
    fn stretch(&self, costs: &mut Costs) {
        for pair in Pairs::of(self.stops) {
            if costs.at(pair) == pair.apart() {
                costs.put(pair, self.tie(pair));
            }
        }
    }

    // Costs that go with these passing times: mostly those with which as many routes tie.
    pub fn matched(&self, chance: &mut Chance, costs: Costs) -> Costs {
        let mut next = costs;
        if !chance.once_in(12) {
            self.stretch(&mut next);
        }
        next
    }
}
