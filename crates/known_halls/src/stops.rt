// A hall of n stops with its tables, and what is read off them.
use calls::tables::{Tables, cells};

#[derive(Clone, Copy)]
pub struct Hall {
    pub n: u64,
    pub tables: Tables,
}

impl Hall {
    // Every entry is 0: no link, and no stop that takes time to pass.
    pub fn empty(n: u64) -> Hall {
        Hall {
            n,
            tables: Tables::filled(0, 0),
        }
    }

    // The same hall, but for the cost of the link from u to v.
    pub fn with_link(self, u: u64, v: u64, cost: u64) -> Hall {
        Hall {
            n: self.n,
            tables: self.tables.with_link(self.n, u, v, cost),
        }
    }

    // The same hall, but for the passing time of v.
    pub fn with_passing(self, v: u64, time: u64) -> Hall {
        Hall {
            n: self.n,
            tables: self.tables.with_passing(v, time),
        }
    }

    // The ways of the pair that has the most.
    pub fn most_ways(&self) -> u32 {
        let ways = self.tables.ways.iter().take(cells(self.n));
        ways.copied().max().unwrap_or(0)
    }

    // The scores of the stops from 1 up to `past`.
    pub fn middle_scores(&self, past: usize) -> &[u64] {
        self.tables.score.get(1..past).unwrap_or(&[])
    }
}
