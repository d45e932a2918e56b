// The cost table of a hall of at most seven stops.
use super::pair::{Pair, Pairs};
use super::take_over::take_over;
use calls::entries::{between, narrow, put};
use calls::tables::{Tables, cells, place};

pub const CELLS: usize = 49;

// The largest cost of a link.
pub const LARGEST: u64 = 65535;

// The cost of the link from each stop to each, 0 where there is none.
#[derive(Clone, Copy)]
pub struct Costs {
    pub stops: u64,
    pub table: [u32; CELLS],
}

impl Costs {
    pub fn none(stops: u64) -> Self {
        Costs {
            stops,
            table: [0; CELLS],
        }
    }

    // Those of tables of a hall of so many stops.
    pub fn of(stops: u64, tables: &Tables) -> Self {
        let mut costs = Costs::none(stops);
        take_over(&tables.cost, CELLS, &mut costs.table);
        costs
    }

    // Puts them into tables.
    pub fn put_into(&self, tables: &mut Tables) {
        take_over(&self.table, cells(self.stops), &mut tables.cost);
    }

    pub fn pairs(&self) -> Pairs {
        Pairs::of(self.stops)
    }

    // The cost of a link; 0 too where the hall has not both stops.
    pub fn at(&self, pair: Pair) -> u64 {
        between(&self.table, self.stops, pair.u, pair.v)
    }

    // Sets the cost of a link; between stops that the hall has not both nothing.
    pub fn put(&mut self, pair: Pair, cost: u64) {
        if let Some(i) = place(self.stops, pair.u, pair.v) {
            put(&mut self.table, i, narrow(cost));
        }
    }

    // Whether work out refuses an entry.
    pub fn are_bad(&self) -> bool {
        self.pairs().any(|pair| {
            let cost = self.at(pair);
            LARGEST < cost || pair.is_same_stop() && cost != 0
        })
    }
}
