// The links of a cost table as sets of stops, one for each stop that they leave.
ghost use Rattle.std.specs.Prelude.{◌≡◌, ℕ, Bool, ◌+◌, ◌*◌, ◌<◌, ◌≤◌, length};
ghost use Rattle.links.specs.Promise.{AllLinks, UsefulLinks};
ghost use Rattle.links.specs.Masks.{Answers, Mask, Masks, Singles};

use super::numbers::select;
use super::sets;

// The links of every stop: bit t of out[u] where the table has a cost from u to t.
pub fn all_links(n: usize, cost: &[u32], out: &mut [u64; 64])
    requires { (n ≤ 64) × (length cost.now ≡ n * n) }
    ensures { AllLinks n cost.now out.new }
{
    links_where(n, out, |at| 0 < cost[at]);
}

// The useful links of every stop: those whose cost is the time between their ends.
pub fn useful_links(n: usize, cost: &[u32], time: &[u32], out: &mut [u64; 64])
    requires { (n ≤ 64) × (length cost.now ≡ n * n) × (length time.now ≡ n * n) }
    ensures { UsefulLinks n cost.now time.now out.new }
{
    links_where(n, out, |at| (0 < cost[at]) & (cost[at] == time[at]));
}

// The links of every stop whose places in a table of n stops pass a test.
fn links_where<F: Fn(usize) -> bool>(n: usize, out: &mut [u64; 64], test: F)
    requires most { n ≤ 64 }
    requires callable { (at : ℕ) → at < n * n → F.pre test at }
    ensures { (p : ℕ → Bool) → Answers (F.post test) n p → Masks n p out.new }
{
    let singles = each_alone();
    for (u, mask) in out.iter_mut().enumerate() {
        *mask = stops_where(n, u, &singles, &test);
    }
}

// The links of stop u that pass, none where there is no such stop. The loop goes over stops by number: t is a part of a place, and the
// stop whose set joins.
fn stops_where<F: Fn(usize) -> bool>(n: usize, u: usize, singles: &[u64; 64], test: &F) -> u64
    requires most { (n ≤ 64) × Singles singles.now }
    requires callable { (at : ℕ) → at < n * n → F.pre test.now at }
    ensures { (p : ℕ → Bool) → Answers (F.post test.now) n p → Mask n (λ u t. p (u * n + t)) u result }
{
    let mut set: u64 = 0;
    if n <= u {
        return set;
    }
    let base = u * n;
    for t in 0..n {
        set |= select((*test)(base + t), singles[t], 0);
    }
    set
}

// The set of each stop alone.
fn each_alone() -> [u64; 64]
    ensures { Singles result }
{
    std::array::from_fn(sets::only)
}
