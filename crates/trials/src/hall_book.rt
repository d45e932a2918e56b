// A hall with the lister's tables of it.
use super::costs::{CELLS, Costs};
use super::pair::Pair;
use super::passing::{Passing, STOPS};
use super::small_hall::Hall;
use calls::entries::between;
use calls::tables::cells;

// The most ways of a pair that is not crowded, and what a whole share counts.
#[derive(Clone, Copy)]
struct Measure {
    ways: u32,
    scale: u32,
}

const MEASURE: Measure = Measure {
    ways: 12,
    scale: 27720,
};

// Those of before.
const OLD: Measure = Measure {
    ways: 22,
    scale: 232792560,
};

// With no limit: no pair has more ways.
const UNLIMITED: Measure = Measure {
    ways: u32::MAX,
    scale: 27720,
};

// Whether a pair of so many ways is crowded, and whether it was so before.
pub fn is_crowded(ways: u64) -> bool {
    u64::from(MEASURE.ways) < ways
}

pub fn is_crowded_before(ways: u64) -> bool {
    u64::from(OLD.ways) < ways
}

// A hall, and the lister's tables of it.
#[derive(Clone, Copy)]
pub struct Book {
    pub hall: Hall,
    pub time: [u64; CELLS],
    pub ways: [u64; CELLS],
    pub share: [u64; CELLS],
    pub score: [u64; STOPS],
}

impl Book {
    fn listed(hall: Hall, measure: Measure) -> Self {
        let mut time = [0u64; CELLS];
        let mut ways = [0u64; CELLS];
        let mut share = [0u64; CELLS];
        let mut score = [0u64; STOPS];
        lister::tables(
            &hall.costs.table,
            &hall.passing.times,
            hall.stops(),
            measure.ways,
            measure.scale,
            &mut time,
            &mut ways,
            &mut share,
            &mut score,
        );
        Book {
            hall,
            time,
            ways,
            share,
            score,
        }
    }

    pub fn of(hall: Hall) -> Self {
        Book::listed(hall, MEASURE)
    }

    // By the old numbers, with passing times of 0, which old halls have. No old hall has a pair of more ways than their limit.
    pub fn of_old(costs: Costs) -> Self {
        let passing = Passing::none(costs.stops);
        Book::listed(Hall::new(costs, passing), OLD)
    }

    pub fn stops(&self) -> u64 {
        self.hall.stops()
    }

    // The ways of a pair; 0 where the hall has not both stops.
    pub fn ways_of(&self, pair: Pair) -> u64 {
        between(&self.ways, self.stops(), pair.u, pair.v)
    }

    // The largest entry of the table of ways.
    fn most_ways(&self) -> u64 {
        let count = cells(self.stops());
        self.ways.iter().copied().take(count).max().unwrap_or(0)
    }

    // The ways of the pair that has the most, all of them counted.
    pub fn all_ways(&self) -> u64 {
        Book::listed(self.hall, UNLIMITED).most_ways()
    }

    // Whether a pair has several ways.
    pub fn has_ties(&self) -> bool {
        1 < self.most_ways()
    }

    // Whether a pair is crowded.
    pub fn is_crowded(&self) -> bool {
        is_crowded(self.most_ways())
    }

    // Whether a pair is so by the old numbers.
    pub fn is_crowded_before(&self) -> bool {
        is_crowded_before(self.most_ways())
    }
}
