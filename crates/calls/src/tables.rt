// Six tables by value, with room for a hall of 65 stops: the five that calls work on, and the passing times, which they only
// read. A hall of n stops has the first n × n entries of each, and the first n passing times and scores.
ghost use Rattle.std.specs.Prelude.{◌≡◌, ◌*◌, ◌<◌, ◌≤◌, IfSome, replicate};
ghost use Rattle.calls.specs.Places.{place_of};

use super::compare::{sum, unlike};
use super::entries::{narrow, put};

pub const CELLS: usize = 4225;

pub const STOPS: usize = 65;

#[derive(Clone, Copy)]
pub struct Tables {
    pub cost: [u32; CELLS],
    pub passing: [u32; STOPS],
    pub time: [u32; CELLS],
    pub ways: [u32; CELLS],
    pub share: [u64; CELLS],
    pub score: [u64; STOPS],
}

impl Tables {
    // Every entry is x, or y in the tables of 64 bits.
    pub fn filled(x: u32, y: u64) -> Tables
        ensures cost_value { (result.cost ≡ replicate 4225 x) × (result.passing ≡ replicate 65 x) × (result.time ≡ replicate 4225 x) × (result.ways ≡ replicate 4225 x) }
        ensures share_value { (result.share ≡ replicate 4225 y) × (result.score ≡ replicate 65 y) }
    {
        Tables {
            cost: [x; CELLS],
            passing: [x; STOPS],
            time: [x; CELLS],
            ways: [x; CELLS],
            share: [y; CELLS],
            score: [y; STOPS],
        }
    }

    // The same tables, but for the cost of the link from u to v.
    pub fn with_link(mut self, n: u64, u: u64, v: u64, c: u64) -> Tables
        ensures { (result.passing ≡ self.passing) × (result.time ≡ self.time) × (result.ways ≡ self.ways) × (result.share ≡ self.share) × (result.score ≡ self.score) }
    {
        if let Some(at) = place(n, u, v) {
            self.cost[at] = narrow(c);
        }
        self
    }

    // The same tables, but for the passing time of v.
    pub fn with_passing(mut self, v: u64, x: u64) -> Tables
        ensures { (result.cost ≡ self.cost) × (result.time ≡ self.time) × (result.ways ≡ self.ways) × (result.share ≡ self.share) × (result.score ≡ self.score) }
    {
        put(&mut self.passing, v as usize, narrow(x));
        self
    }

    // How many entries differ from those of six others, with all their room.
    pub fn unlike(&self, other: &Tables) -> u64 {
        sum(&[
            unlike(&self.cost, &other.cost, CELLS),
            unlike(&self.time, &other.time, CELLS),
            unlike(&self.ways, &other.ways, CELLS),
            unlike(&self.share, &other.share, CELLS),
            unlike(&self.score, &other.score, STOPS),
            unlike(&self.passing, &other.passing, STOPS),
        ])
    }
}

// The number of entries of a hall's tables; a hall of more than 65 stops counts as one of none.
pub fn cells(n: u64) -> usize
    ensures { (n ≤ 65 → result ≡ n * n) × (result ≤ 4225) }
{
    stops(n) * stops(n)
}

// The number of its scores, and of its passing times.
pub fn stops(n: u64) -> usize
    ensures { (n ≤ 65 → result ≡ n) × (result ≤ 65) }
{
    if n > 65 { 0 } else { n as usize }
}

// Where a table has its entry for u and v, if it has one.
pub fn place(n: u64, u: u64, v: u64) -> Option<usize>
    ensures within { IfSome result (λ at. at < 4225) }
    ensures value { result ≡ place_of n u v }
{
    if 65 < n || n <= u || n <= v {
        return None;
    }
    Some((u * n + v) as usize)
}
