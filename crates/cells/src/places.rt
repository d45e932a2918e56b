// Where things stand in the lent tables, and whether the tables have their lengths.
ghost use Rattle.std.specs.Prelude.{◌≡◌, ◌*◌, ◌<◌, ◌≤◌, length};
ghost use Rattle.book.specs.Hall.{entry, sized as is_sized};
ghost use Rattle.book.specs.Contract.{seen};
ghost use Rattle.cells.specs.Promise.{Starts};

use book::lent::Lent;

// Where row s of a table begins.
pub fn start(n: usize, s: usize) -> usize
    requires { (s < n) × (n ≤ 64) }
    ensures { Starts n s result }
{
    s * n
}

// The number of entries of a table.
pub fn cells(n: usize) -> usize
    requires { n ≤ 64 }
    ensures { (result ≡ n * n) × (result ≤ 4096) }
{
    n * n
}

// The entry in row u, column v: of the costs that of the link u to v, 0 where there is none.
pub fn read_entry(n: usize, u: usize, v: usize, table: &[u32]) -> u32
    requires { (u < n) × (v < n) × (n ≤ 64) × (length table.now ≡ n * n) }
    ensures { result ≡ entry n table.now u v }
{
    table[start(n, u) + v]
}

// Each of the five tables and the passing times have their length.
#[tactic(auto, unfolding(book::specs::Hall::sized))]
pub fn sized(n: usize, t: &Lent<'_>) -> bool
    requires { n ≤ 64 }
    ensures { result ≡ is_sized n (seen t.now) }
{
    let square = cells(n);
    t.cost.len() == square
        && t.passing.len() == n
        && t.time.len() == square
        && t.ways.len() == square
        && t.share.len() == square
        && t.score.len() == n
}
