// The tables' entries, read off a tally.
ghost use Rattle.std.specs.Prelude.{◌≡◌, ◌*◌, ◌<◌, ◌≤◌, drop, slice_set};

use crate::hall::Hall;
use crate::tally::{Part, Tally};

// The scale is what a whole share counts. A pair with more ways than the limit is crowded: its entry of ways is the limit and one
// more, and it adds nothing to shares.
#[derive(Clone, Copy)]
pub struct Counting {
    pub limit: u32,
    pub scale: u32,
}

impl Counting {
    // The entry for so many ways.
    fn entry(self, ways: u32) -> u64 {
        u64::from(ways).min(u64::from(self.limit) + 1)
    }

    // What the quickest routes to a stop give v: the scale times those that stop at v ÷ all. Where there are none or too many they
    // give nothing.
    fn portion(self, part: &Part, v: usize) -> u64
        requires { v < 64 }
    {
        if part.ways == 0 || part.ways > self.limit {
            return 0;
        }
        u64::from(self.scale) * u64::from(part.through[v]) / u64::from(part.ways)
    }

    // The share of v in the routes from s, 0 for s itself: those to s or to v give nothing. A hall's sums of shares fit 64 bits.
    fn share(self, parts: &[Part], s: usize, v: usize) -> u64
        requires { v < 64 }
    {
        if v == s {
            return 0;
        }
        parts
            .iter()
            .enumerate()
            .filter(|&(t, _)| t != s && t != v)
            .map(|(_, part)| self.portion(part, v))
            .fold(0u64, |sum, x| sum.wrapping_add(x))
    }
}

// Sets an entry, if the table has it.
fn put(table: &mut [u64], at: usize, x: u64)
    ensures { table.new ≡ slice_set table.old at x }
{
    if at < table.len() {
        table[at] = x;
    }
}

// Sets the entry for u and v; behind the n × n entries of the hall the table stays.
fn put_entry(table: &mut [u64], hall: &Hall<'_>, u: usize, v: usize, x: u64)
    requires u_lt_n { u < hall.now.n }
    requires v_lt_n { v < hall.now.n }
    ensures { drop (hall.now.n * hall.now.n) table.new ≡ drop (hall.now.n * hall.now.n) table.old }
{
    put(table, hall.cell(u, v), x);
}

// Fills the rows of s from the tally of its routes. As a struct the three tables would bring what is known of three loans into each clause.
pub fn fill_row(
    counting: Counting,
    hall: &Hall<'_>,
    s: usize,
    tally: &Tally,
    time: &mut [u64],
    ways: &mut [u64],
    share: &mut [u64],
)
    requires { s < hall.now.n }
    ensures time_unchanged { drop (hall.now.n * hall.now.n) time.new ≡ drop (hall.now.n * hall.now.n) time.old }
    ensures ways_unchanged { drop (hall.now.n * hall.now.n) ways.new ≡ drop (hall.now.n * hall.now.n) ways.old }
    ensures share_unchanged { drop (hall.now.n * hall.now.n) share.new ≡ drop (hall.now.n * hall.now.n) share.old }
{
    let parts = tally.parts(hall);
    for (t, part) in parts.iter().enumerate() {
        put_entry(time, hall, s, t, part.time);
        put_entry(ways, hall, s, t, counting.entry(part.ways));
        put_entry(share, hall, s, t, counting.share(parts, s, t));
    }
}

// The sum of the shares of v, over all sources.
fn score_of(hall: &Hall<'_>, share: &[u64], v: usize) -> u64
    requires { v < hall.now.n }
{
    share
        .chunks(hall.n)
        .take(hall.n)
        .filter_map(|row| row.get(v))
        .fold(0u64, |sum, x| sum.wrapping_add(*x))
}

// Fills the scores from the shares; behind the n scores of the hall the table stays. The loop goes over stops by number: a lent table may
// be shorter than the hall.
pub fn fill_scores(hall: &Hall<'_>, share: &[u64], score: &mut [u64])
    ensures { drop hall.now.n score.new ≡ drop hall.now.n score.old }
{
    for v in 0..hall.n {
        put(score, v, score_of(hall, share, v));
    }
}
