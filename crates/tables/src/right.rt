// The audit without the tests of n and of the lengths.
ghost use Rattle.std.specs.Prelude.{◌≡◌, true, ◌<◌, ◌≤◌, length};
ghost use Rattle.links.specs.Costs.{linked_from};
ghost use Rattle.row_check.specs.Promise.{is_row};
ghost use Rattle.book.specs.Hall.{sized, valid_passing, right as is_right};
ghost use Rattle.book.specs.Contract.{seen};
ghost use Rattle.cells.specs.Promise.{Shares};
ghost use Rattle.tables.specs.Promise.{part, Square, no_shortcut, rows_pass, scores_pass};

use book::lent::Lent;
use book::limits::Hall;
use cells::{costs, places, scores};
use links::masks::useful_links;
use links::measure::Measure;
use links::network::Network;
use row_check::check;

// No link is cheaper than the time between its ends.
fn no_shortcut(cost: &[u32], time: &[u32]) -> bool
    requires { length cost.now ≡ length time.now }
    ensures { result ≡ no_shortcut cost.now time.now }
{
    let mut ok = true;
    for (c, t) in cost.iter().zip(time) {
        ok &= !((0 < *c) & (*c < *t));
    }
    ok
}

// The three parts of source s are its row over the links of the network.
fn row_passes(network: Network, s: usize, measure: Measure, t: &Lent<'_>) -> bool
    requires square { Square network.n t.now.time.now t.now.ways.now t.now.share.now }
    requires s_lt_n { s < network.n }
    ensures { result ≡ is_row (linked_from network.entry s) network.entry.n s measure.limit measure.scale (part network.entry.n t.now.time.now s) (part network.entry.n t.now.ways.now s) (part network.entry.n t.now.share.now s) }
{
    let at = places::start(network.n, s);
    let end = at + network.n;
    check(
        network,
        s,
        measure,
        &t.time[at..end],
        &t.ways[at..end],
        &t.share[at..end],
    )
}

// The parts of every source are its row.
fn rows_pass(network: Network, measure: Measure, t: &Lent<'_>) -> bool
    requires { Square network.n t.now.time.now t.now.ways.now t.now.share.now }
    ensures { result ≡ rows_pass measure.limit measure.scale network.entry.n (linked_from network.entry) t.now.time.now t.now.ways.now t.now.share.now }
{
    (0..network.n).all(|s| row_passes(network, s, measure, t))
}

// Each score is the sum of its shares.
fn scores_pass(n: usize, share: &[u64], score: &[u64]) -> bool
    requires shares { Shares n share.now }
    requires score_len { length score.now ≡ n }
    ensures { result ≡ scores_pass n share.now score.now }
{
    let mut sum = [0u64; Hall::STOPS];
    scores::sum_scores(n, share, &mut sum);
    score.iter().zip(&sum).all(|(score, sum)| *score == *sum)
}

// The tables belong to their hall: valid costs, and what a work out fills for them.
pub fn right(measure: Measure, n: usize, t: &Lent<'_>) -> bool
    requires n_nonzero { (0 < n) × (n ≤ 64) × (sized n (seen t.now) ≡ true) }
    requires passing_value { valid_passing n t.now.passing.now ≡ true }
    ensures { result ≡ is_right measure.scale measure.limit n (seen t.now) }
{
    if !costs::valid(n, t.cost) {
        return false;
    }
    if !no_shortcut(t.cost, t.time) {
        return false;
    }
    let mut out = [0u64; 64];
    useful_links(n, t.cost, t.time, &mut out);
    let network = Network {
        n,
        cost: t.cost,
        passing: t.passing,
        out: &out,
    };
    if !rows_pass(network, measure, t) {
        return false;
    }
    scores_pass(n, t.share, t.score)
}
