// Empty hall: the tables of a hall without links.
ghost use Rattle.std.specs.Prelude.{◌≡◌, ◌*◌, ◌≤◌, length};
ghost use Rattle.book.specs.Hall.{most_ways, scale, filled, no_links};
ghost use Rattle.book.specs.Call.{empty_hall, Done};
ghost use Rattle.book.specs.Contract.{held, SameLoans, of_refusal, Inside};
ghost use Rattle.hall.specs.Promise.{Diagonal};

use super::door::door;
use book::Refusal;
use book::lent::LentMut;
use book::limits::Hall;
use cells::places;

// From each stop to itself: no time, and one way. The loop goes over stops by number, whose place it works out in two tables.
fn diagonal(n: usize, time: &mut [u32], ways: &mut [u32])
    requires { (n ≤ 64) × (length time.old ≡ n * n) × (length ways.old ≡ n * n) }
    ensures { Diagonal n n 0 time.old time.new × Diagonal n n 1 ways.old ways.new }
{
    for s in 0..n {
        let at = places::start(n, s) + s;
        time[at] = 0;
        ways[at] = 1;
    }
}

// The tables of a hall without links, on tables of any content.
fn make_empty(n: usize, t: &mut LentMut<'_>)
    requires { Inside n (held t.old) }
    ensures loans { SameLoans t.old t.new }
    ensures tables { held t.new ≡ filled scale most_ways n (no_links n t.old.passing.now) }
{
    t.cost.fill(0);
    t.time.fill(Hall::MARK);
    t.ways.fill(0);
    t.share.fill(0);
    t.score.fill(0);
    diagonal(n, t.time, t.ways);
}

pub fn empty_hall(n: u64, t: &mut LentMut<'_>) -> Result<(), Refusal>
    ensures loans { SameLoans t.old t.new }
    ensures done { Done (record { n = n; ask = empty_hall t.old.passing.now }) (held t.old) (held t.new) (of_refusal result) }
{
    door(n, &t.view())?;
    make_empty(n as usize, t);
    Ok(())
}
