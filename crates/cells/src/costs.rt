// Whether costs are valid.
ghost use Rattle.std.specs.Prelude.{◌≡◌, ◌*◌, ◌≤◌, eqb, length};
ghost use Rattle.routes.specs.Route.{all_to};
ghost use Rattle.book.specs.Hall.{entry, valid_costs};
ghost use Rattle.cells.specs.Promise.{none_above};

use super::places;
use book::limits::Hall;

// No entry is above the limit. The loop tests every entry, without a branch, so that the compiler tests several at a time: `all`,
// which stops early, takes twice the steps.
pub fn within(limit: u32, table: &[u32]) -> bool
    ensures { result ≡ none_above limit table.now }
{
    let mut bad = false;
    for x in table {
        bad |= limit < *x;
    }
    !bad
}

// No stop has a link to itself.
fn apart(n: usize, cost: &[u32]) -> bool
    requires { (n ≤ 64) × (length cost.now ≡ n * n) }
    ensures { result ≡ all_to n (λ u. eqb (entry n cost.now u u) 0) }
{
    (0..n).all(|u| places::read_entry(n, u, u, cost) == 0)
}

// Every entry is a cost or 0, and 0 on the diagonal.
pub fn valid(n: usize, cost: &[u32]) -> bool
    requires { (n ≤ 64) × (length cost.now ≡ n * n) }
    ensures { result ≡ valid_costs n cost.now }
{
    within(Hall::LARGEST_COST, cost) && apart(n, cost)
}
