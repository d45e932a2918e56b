// The links of a row: what flows back over the tight ones, the ways that they bring, and whether one improves a time.
ghost use Rattle.std.specs.Prelude.{◌≡◌, ℕ, ◌<◌, MatchOption};
ghost use Rattle.links.specs.Costs.{linked_from};
ghost use Rattle.row_check.specs.Tests.{at};
ghost use Rattle.row_check.specs.Tight.{Kept, Scan, Scans, Balance, AllRelaxed, Balanced};

use links::counts;
use links::network::Network;
use links::numbers::{select, stay};
use links::sets::Stops;

// Goes over the links from u, on routes from s, and adds the ways of u at the ends of the tight ones. Gives the flow back over
// these, nothing where a link improves a time.
// From a stop without a time no link is tight and none improves a time: its way is longer than the mark.
fn scan(
    network: Network,
    s: usize,
    u: usize,
    time: &[u32],
    ways: &[u32],
    psi: &[u64],
    sum: &mut [u16; 64],
) -> Option<u64>
    requires { Scan network.n s u (at network.out.now u) network.cost.now network.passing.now time.now ways.now psi.now sum.old }
    ensures { let h = network.entry in let links = at h.out.now u in MatchOption result (¬ (Kept h.n s u links h.cost.now h.passing.now time.now)) (Scans h.n s u links h.cost.now h.passing.now time.now ways.now psi.now sum.old sum.new) }
{
    let base = u * network.n;
    let end = base + network.n;
    let row = &network.cost[base..end];
    let near = u64::from(time[u]) + u64::from(stay(s, u, network.passing));
    let more = ways[u] as u16;
    let mut flow: u64 = 0;
    let mut improves = false;
    for t in Stops(network.out[u]) {
        let via = near + u64::from(row[t]);
        let far = u64::from(time[t]);
        let tight = via == far;
        improves |= via < far;
        // Off a tight link the flow is that of the source, psi[s], which is 0: it adds nothing.
        flow += psi[select(tight, t, s)];
        sum[t] = counts::add(sum[t], select(tight, more, 0));
    }
    if improves { None } else { Some(flow) }
}

// Leaves what goes over the tight links of all stops: the flow back to each stop, for the source 0, and the sum of its ways, for the
// source 1. Gives nothing where a link improves a time.
pub fn flows(
    network: Network,
    s: usize,
    time: &[u32],
    ways: &[u32],
    psi: &[u64],
    back: &mut [u64; 64],
    sum: &mut [u16; 64],
) -> Option<()>
    requires asked { Balance network.n s network.cost.now network.passing.now network.out.now time.now ways.now psi.now }
    requires empty { (t : ℕ) → t < 64 → at sum.old t ≡ 0 }
    ensures { let W = linked_from network.entry s in MatchOption result (¬ (AllRelaxed W network.entry.n time.now)) (λ _. Balanced W network.entry.n s time.now ways.now psi.now sum.new back.new) }
{
    for (u, flow) in back[..network.n].iter_mut().enumerate() {
        *flow = scan(network, s, u, time, ways, psi, sum)?;
    }
    back[s] = 0;
    sum[s] = 1;
    Some(())
}
