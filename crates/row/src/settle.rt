// Dijkstra's algorithm: stops are settled from near to far.
ghost use Rattle.std.specs.Prelude.{◌≡◌, suc, ◌+◌, ◌<◌, ◌≤◌, min, length, [], MatchOption};
ghost use Rattle.links.specs.Promise.{Below};
ghost use Rattle.links.specs.Costs.{linked_from};
ghost use Rattle.row.specs.Settled.{Begun, Settled};
ghost use Rattle.row.specs.Steps.{Nearest, Tally, sum_over, joined_by, Offers, Offered};

use arrayvec::ArrayVec;
use links::counts;
use links::measure::Measure;
use links::network::Network;
use links::numbers::{select, stay};
use links::sets::{Stops, only};

// Settles every stop that the source reaches, and keeps their order.
pub fn settle(
    network: Network,
    s: usize,
    measure: Measure,
    time: &mut [u32],
    ways: &mut [u32],
    pred: &mut [u64],
    order: &mut ArrayVec<usize, 64>,
)
    requires source { s < network.n }
    requires begun { Begun network.n s time.old ways.old pred.old }
    requires empty { order.old.items ≡ [] }
    ensures { Settled (linked_from network.entry s) network.entry.n s measure.limit time.new ways.new pred.new order.new.items (length order.new.items) }
{
    let mut done: u64 = 0;
    let mut frontier = only(s);
    while let Some(b) = nearest(time, frontier) {
        let bit = only(b);
        order.push(b);
        done |= bit;
        let count = tally(measure.limit, ways[b], pred[b], ways);
        ways[b] = count;
        let fresh = network.out[b] & !done;
        relax(network, s, b, fresh, time, pred);
        frontier = (frontier & !bit) | fresh;
    }
}

// The stop of least time in a frontier, nothing where it is empty. A loop, since min_by_key takes 8 % more instructions here, where
// a fill has two fifths of its own.
fn nearest(time: &[u32], frontier: u64) -> Option<usize>
    requires { Below (length time.now) frontier }
    ensures { MatchOption result (frontier ≡ 0) (Nearest time.now frontier) }
{
    let mut stops = Stops(frontier);
    let mut best = stops.next()?;
    let mut low = time[best];
    for t in stops {
        let at = time[t];
        best = select(at < low, t, best);
        low = low.min(at);
    }
    Some(best)
}

// The ways into a stop: a first count and those of its predecessors, counted in 16 bits up to limit + 1.
fn tally(limit: u32, first: u32, from: u64, ways: &[u32]) -> u32
    requires { Tally limit first from ways.now }
    ensures { result ≡ min (suc limit) (first + sum_over ways.now from) }
{
    let top = limit as u16 + 1;
    let mut count = first as u16;
    for u in Stops(from) {
        count = counts::add(count, ways[u] as u16).min(top);
    }
    u32::from(count)
}

// Offers the links from b to the stops of a set, on routes from s.
fn relax(network: Network, s: usize, b: usize, fresh: u64, time: &mut [u32], pred: &mut [u64])
    requires { Offers network.n s b fresh network.cost.now network.passing.now time.old pred.old }
    ensures { Offered network.entry.n s b fresh network.entry.cost.now network.entry.passing.now time.old pred.old time.new pred.new }
{
    let bit = only(b);
    let base = b * network.n;
    let at = time[b] + stay(s, b, network.passing);
    for t in Stops(fresh) {
        let via = at + network.cost[base + t];
        let old = time[t];
        pred[t] = predecessors(via, old, bit, pred[t]);
        time[t] = old.min(via);
    }
}

// The predecessors of a stop of time `old` after the offer `via` of the stop of `bit`.
fn predecessors(via: u32, old: u32, bit: u64, pred: u64) -> u64
    ensures { result ≡ joined_by via old bit pred }
{
    let kept = if via < old { 0 } else { pred };
    let more = if via <= old { bit } else { 0 };
    kept | more
}
