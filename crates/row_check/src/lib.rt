// Says whether lent parts are the row of one source: by local equations, with no order and no work done again.
#![tactic(auto)]

mod flows;
mod handed;
mod tests;

ghost use Rattle.std.specs.Prelude.{◌≡◌, ◌<◌, length};
ghost use Rattle.links.specs.Costs.{linked_from};
ghost use Rattle.row_check.specs.Promise.{is_row};

use links::measure::Measure;
use links::network::Network;

// The three parts are the row of source s over the links of the network.
pub fn check(
    network: Network,
    s: usize,
    measure: Measure,
    time: &[u32],
    ways: &[u32],
    share: &[u64],
) -> bool
    requires source { s < network.n }
    requires time_len { (length time.now ≡ network.n) × (length ways.now ≡ network.n) × (length share.now ≡ network.n) }
    ensures { result ≡ is_row (linked_from network.entry s) network.entry.n s measure.limit measure.scale time.now ways.now share.now }
{
    if !tests::at_source(s, time, ways, share) {
        return false;
    }
    if !tests::reached(time, ways) {
        return false;
    }
    if !tests::few_in_all(ways) {
        return false;
    }
    if !tests::light(share) {
        return false;
    }
    let mut psi = [0u64; 64];
    let psi = &mut psi[..network.n];
    handed::hand_back(s, measure, ways, share, psi);
    let mut back = [0u64; 64];
    let mut sum = [0u16; 64];
    let Some(()) = flows::flows(network, s, time, ways, psi, &mut back, &mut sum) else {
        return false;
    };
    let back = &back[..network.n];
    let sum = &sum[..network.n];
    tests::balanced(ways, share, back) && tests::counted(measure.limit + 1, ways, sum)
}
