// One source's row of a hall: the least time, the ways and the share of every stop, over the links of a network.
#![tactic(auto)]

mod push;
mod settle;

ghost use Rattle.std.specs.Prelude.{◌≡◌, ◌<◌, length};
ghost use Rattle.links.specs.Costs.{linked_from};
ghost use Rattle.row.specs.Promise.{RightRow};

use arrayvec::ArrayVec;
use book::limits::Hall;
use links::measure::Measure;
use links::network::Network;

// Writes the row of the source s. A stop with more ways than the limit has limit + 1, and adds nothing to shares.
pub fn fill(
    network: Network,
    s: usize,
    measure: Measure,
    time: &mut [u32],
    ways: &mut [u32],
    share: &mut [u64],
)
    requires source { s < network.n }
    requires time_len { length time.old ≡ network.n }
    requires ways_len { length ways.old ≡ network.n }
    requires share_len { length share.old ≡ network.n }
    ensures { RightRow (linked_from network.entry s) network.entry.n s measure.limit measure.scale time.new ways.new share.new }
{
    time.fill(Hall::MARK);
    ways.fill(0);
    share.fill(0);
    time[s] = 0;
    ways[s] = 1;
    let mut pred = [0u64; 64];
    let mut order: ArrayVec<usize, 64> = ArrayVec::new();
    settle::settle(network, s, measure, time, ways, &mut pred, &mut order);
    push::accumulate(measure, ways, &pred, &order, share);
    share[s] = 0;
}
