// The walk over the quickest routes to a stop: go on from a stop, take its next link, go on from there. Each route is stored as it is met.
#![tactic(auto)]

pub mod trip;

ghost use Rattle.std.specs.Prelude.{◌≡◌, ◌∷◌, ◌+◌, ◌*◌, ◌^◌, ◌<◌, ◌≤◌, length, take};
ghost use Rattle.std.proofs.lemmas.List.Edits.{sets};
ghost use Rattle.book.specs.Hall.{entry};
ghost use Rattle.route_walk.specs.Promise.{on_from, Wrote};
ghost use Rattle.route_walk.specs.Walked.{leading, First, Stands, from_bytes, along_bytes, whole_bytes};

use book::limits::Hall;
use cells::places::read_entry;
use links::numbers;
use trip::Trip;

// The time from y on to t on a route from s, with what it takes to pass y. At t nothing is left.
pub fn on_from(n: usize, s: usize, t: usize, y: usize, passing: &[u32], time: &[u32]) -> u64
    requires { (n ≤ 64) × (t < n) × (y < n) × (length passing.now ≡ n) × (length time.now ≡ n * n) }
    ensures { (result ≡ on_from n s t passing.now time.now y) × (result < 2 ^ 33) }
{
    if y == t {
        return 0;
    }
    u64::from(numbers::stay(s, y, passing)) + u64::from(read_entry(n, y, t, time))
}

impl Trip<'_> {
    // Whether the link u to y leads on to t by the times: in right tables, whether some quickest route from s to t uses it.
    fn leads(&self, u: usize, y: usize) -> bool
        requires { (u < self.now.n) × (y < self.now.n) }
        ensures { result ≡ leading self.now u y }
    {
        let Trip {
            n,
            s,
            t,
            cost,
            passing,
            time,
        } = *self;
        let link = u64::from(read_entry(n, u, y, cost));
        if link == 0 {
            return false;
        }
        let near = u64::from(read_entry(n, s, y, time));
        let leaving = u64::from(read_entry(n, s, u, time))
            + u64::from(numbers::stay(s, u, passing));
        leaving + link == near
            && near + on_from(n, s, t, y, passing, time) == u64::from(read_entry(n, s, t, time))
    }

    // The first stop, counted from `from`, to which such a link leads from u.
    fn next_stop(&self, u: usize, from: usize) -> Option<usize>
        requires { (u < self.now.n) × (from ≤ self.now.n) }
        ensures { First self.now u from result }
    {
        (from..self.n).find(|y| self.leads(u, *y))
    }
}

// Stores a route behind the number of its stops. Says where the next route goes. A loop, since a C host is asked for memcpy and memset
// alone, and the library's copy of a slice needs memmove.
fn put_route(route: &[u8], at: usize, buffer: &mut [u8]) -> usize
    requires { (length route.now ≤ 64) × (at + 1 + length route.now ≤ length buffer.old) }
    ensures { (result ≡ at + 1 + length route.now) × (buffer.new ≡ sets buffer.old at (length route.now ∷ route.now)) }
{
    buffer[at] = route.len() as u8;
    for i in 0..route.len() {
        buffer[at + 1 + i] = route[i];
    }
    at + 1 + route.len()
}

// Goes on from u, behind the first k stops of the path: stores the route where u is the last stop, else takes the links from u. The
// two functions end because stops left, n less k, and links left, n less `from`, make a number that falls. The path is lent with its
// k, since a walk that turns back then has nothing to take off it.
#[cycle(from_stop_next_link)]
fn from_stop(
    trip: &Trip<'_>,
    k: usize,
    u: usize,
    path: &mut [u8],
    at: usize,
    buffer: &mut [u8],
) -> usize
    requires standing { Stands trip.now k u path.old }
    requires u_in_bounds { at + length (from_bytes trip.now k path.old u) ≤ length buffer.old }
    ensures wrote { Wrote (from_bytes trip.now k path.old u) at result buffer.old buffer.new }
    ensures path_unchanged { take k path.new ≡ take k path.old }
{
    path[k] = u as u8;
    if u == trip.t {
        return put_route(&path[..k + 1], at, buffer);
    }
    next_link(trip, k, u, 0, path, at, buffer)
}

// Takes the links from u, the last of the first k + 1 stops of the path, to the stops counted from `from`.
#[cycle(from_stop_next_link)]
fn next_link(
    trip: &Trip<'_>,
    k: usize,
    u: usize,
    from: usize,
    path: &mut [u8],
    at: usize,
    buffer: &mut [u8],
) -> usize
    requires standing { Stands trip.now k u path.old × (from ≤ trip.now.n) }
    requires from_in_bounds { at + length (along_bytes trip.now k path.old u from) ≤ length buffer.old }
    ensures wrote { Wrote (along_bytes trip.now k path.old u from) at result buffer.old buffer.new }
    ensures path_unchanged { take (k + 1) path.new ≡ take (k + 1) path.old }
{
    let Some(y) = trip.next_stop(u, from) else {
        return at;
    };
    let end = from_stop(trip, k + 1, y, path, at, buffer);
    next_link(trip, k, u, y + 1, path, end, buffer)
}

// Stores the routes of a trip, one behind the other. Says where they end.
pub fn put_routes(trip: &Trip<'_>, at: usize, buffer: &mut [u8]) -> usize
    requires own { entry trip.now.n trip.now.time.now trip.now.s trip.now.s ≡ 0 }
    requires time_in_bounds { at + length (whole_bytes trip.now) ≤ length buffer.old }
    ensures { Wrote (whole_bytes trip.now) at result buffer.old buffer.new }
{
    let mut path = [0u8; Hall::STOPS];
    from_stop(trip, 0, trip.s, &mut path, at, buffer)
}
