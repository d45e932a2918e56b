// Scores: the sums of shares over all sources.
ghost use Rattle.std.specs.Prelude.{◌≡◌, ◌++◌, ℕ, ◌+◌, ◌^◌, ◌<◌, ◌≤◌, length, get_or, drop};
ghost use Rattle.routes.specs.Route.{list_to};
ghost use Rattle.cells.specs.Promise.{Shares, summed};

use super::places;

// Adds a row of shares to the sums in front, as many as it has.
fn add(row: &[u64], sum: &mut [u64])
    requires row_len { length row.now ≤ length sum.old }
    requires fits { (v : ℕ) → v < length row.now → get_or sum.old v 0 + get_or row.now v 0 < 2 ^ 64 }
    ensures { sum.new ≡ list_to (length row.now) (λ v. get_or sum.old v 0 + get_or row.now v 0) ++ drop (length row.now) sum.old }
{
    for (v, share) in row.iter().enumerate() {
        sum[v] += *share;
    }
}

// Sums the shares of each stop into the first n sums. The others stay. Rows are taken by number: `chunks_exact` takes no chunks of 0, and
// n may be 0.
pub fn sum_scores(n: usize, share: &[u64], sum: &mut [u64])
    requires shares { Shares n share.now }
    requires n_in_bounds { n ≤ length sum.old }
    ensures { sum.new ≡ summed n n share.now sum.old }
{
    sum[..n].fill(0);
    for s in 0..n {
        let at = places::start(n, s);
        add(&share[at..at + n], sum);
    }
}
