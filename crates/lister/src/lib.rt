// A slow lister of routes, for halls of at most 64 stops. It walks over every route from each stop,
// keeps count of the quickest to each other, and gives what they make: times, ways, shares, scores,
// the sources that an edited link touches, and the quickest routes themselves. A larger n counts as 64.
// How long it takes goes by the number of routes, and not of stops.
//
// What a hall's own entries hold, which bits of stops a set has, and which routes are written, the
// contracts leave free: to fix it they would need the definitions of what the lister is held against.
#![tactic(auto)]

mod fill;
mod hall;
mod quickest;
mod route;
mod tally;
mod walk;

ghost use Rattle.std.specs.Prelude.{◌≡◌, ◌*◌, ◌^◌, ◌<◌, ◌≤◌, min, length, drop, bit_or, count_ones};
ghost use Rattle.lister.specs.Wrote.{Wrote};

use fill::{Counting, fill_row, fill_scores};
use hall::{Hall, Stop};
use quickest::put_routes;
use tally::Tally;

// Fills the times, the ways, the shares and the scores of a cost table and the stops' passing times; a whole share counts the scale.
// A pair with more ways than the limit has the entry limit + 1, and adds nothing to shares. What a lent table has behind the hall's
// entries stays. The lister has no type of what it is held against, so its tables come one by one.
pub fn tables(
    cost: &[u32],
    passing: &[u32],
    n: u64,
    limit: u32,
    scale: u32,
    time: &mut [u64],
    ways: &mut [u64],
    share: &mut [u64],
    score: &mut [u64],
)
    ensures time_unchanged { drop (min n 64 * min n 64) time.new ≡ drop (min n 64 * min n 64) time.old }
    ensures ways_unchanged { drop (min n 64 * min n 64) ways.new ≡ drop (min n 64 * min n 64) ways.old }
    ensures share_unchanged { drop (min n 64 * min n 64) share.new ≡ drop (min n 64 * min n 64) share.old }
    ensures score_unchanged { drop (min n 64) score.new ≡ drop (min n 64) score.old }
{
    let hall = Hall::new(cost, passing, n);
    let counting = Counting { limit, scale };
    let mut tally = Tally::new(None);
    // Over stops, by number.
    for s in 0..hall.n {
        tally.list(&hall, Stop::new(s));
        fill_row(counting, &hall, s, &tally, time, ways, share);
    }
    fill_scores(&hall, share, score);
}

// Whether a quickest route from s uses the link of the tally.
fn touches(hall: &Hall<'_>, s: Stop, tally: &mut Tally) -> bool {
    tally.list(hall, s);
    tally.parts(hall).iter().any(|part| part.using > 0)
}

// The set with s in it: bit s is 1.
fn with(set: u64, s: usize) -> u64
    requires { s < 64 }
    ensures { result ≡ bit_or set (2 ^ s) }
{
    set | 1 << s
}

// The set of the sources from which a quickest route, before or after, uses the link from u to v. Only
// bits of stops are 1 in it.
pub fn touched(before: &[u32], after: &[u32], passing: &[u32], n: u64, u: u64, v: u64) -> u64
    ensures { result < 2 ^ min n 64 }
{
    let before = Hall::new(before, passing, n);
    let after = Hall::new(after, passing, n);
    let mut tally = Tally::new(before.link(u, v));
    let mut set = 0;
    // Over stops, by number: it is the bit.
    for number in 0..before.n {
        let s = Stop::new(number);
        if touches(&before, s, &mut tally) || touches(&after, s, &mut tally) {
            set = with(set, number);
        }
    }
    set
}

// How many bits of a set are 1. They are counted by division, and not by the `count_ones` of the library that the lister is held
// against.
pub fn number(set: u64) -> u64
    ensures { result ≡ count_ones set }
{
    let mut number = 0;
    let mut rest = set;
    while rest > 0 {
        number += rest % 2;
        rest /= 2;
    }
    number
}

// The least time of a route from s to t.
fn least(hall: &Hall<'_>, s: Stop, t: Stop) -> u64 {
    let mut tally = Tally::new(None);
    tally.list(hall, s);
    tally.time(t)
}

// Writes the quickest routes from s to t: one byte with their number, and then each as one byte with the number of its stops and a
// byte for each stop, in order of their stops, compared from the front. Says how many bytes it wrote; a list that the buffer is too
// short for is cut off. From and to a stop of n or more there is no route.
pub fn routes(cost: &[u32], passing: &[u32], n: u64, s: u64, t: u64, buffer: &mut [u8]) -> usize
    ensures { Wrote 0 result buffer.old buffer.new }
{
    let hall = Hall::new(cost, passing, n);
    let Some(number) = buffer.first_mut() else {
        return 0;
    };
    *number = 0;
    let (Some(s), Some(t)) = (hall.stop(s), hall.stop(t)) else {
        return 1;
    };
    put_routes(&hall, s, t, least(&hall, s, t), buffer)
}
