// A refused list is put back: the costs that its edits set, the last one first, and then the rows that they touched.
ghost use Rattle.std.specs.Prelude.{◌≡◌, ◌<◌, ◌≤◌, length};
ghost use Rattle.std.specs.List.{All};
ghost use Rattle.book.specs.Hall.{most_ways, most_edits, scale, filled};
ghost use Rattle.book.specs.Contract.{these, left, found_layout, held, SameLoans};
ghost use Rattle.course.specs.Promise.{kept, undone, undo, RightOutside, Undoes, IsInside};

use super::{Change, Course};
use book::lent::LentMut;
use cells::scores;
use links::masks::all_links;
use links::network::Network;
use tables::{measures, rows};

// The costs before the changes.
fn put_costs(changes: &[Change], cost: &mut [u32])
    requires { IsInside (length cost.old) changes.now }
    ensures { cost.new ≡ undone changes.now cost.old }
{
    for change in changes.iter().rev() {
        cost[change.spot as usize] = change.cost;
    }
}

// The tables of the hall with these costs, where the rows outside a set are its rows already. The costs are only read: they are lent to be
// written, since the check does not cover reading one table of a struct while others are lent.
fn put_rows(
    n: usize,
    set: u64,
    cost: &mut [u32],
    passing: &[u32],
    time: &mut [u32],
    ways: &mut [u32],
    share: &mut [u64],
    score: &mut [u64],
)
    requires { RightOutside n set (these cost.old passing.now time.old ways.old share.old score.old) }
    ensures costs { cost.new ≡ cost.old }
    ensures tables { left cost.new passing.now time.new ways.new share.new score.new ≡ filled scale most_ways n (found_layout cost.old passing.now) }
{
    let mut out = [0u64; 64];
    all_links(n, cost, &mut out);
    let network = Network {
        n,
        cost,
        passing,
        out: &out,
    };
    rows::fill_rows(network, measures::present(), set, time, ways, share);
    scores::sum_scores(n, share, score);
}

// The tables of before the list.
pub fn put_back(n: usize, course: Course, t: &mut LentMut<'_>)
    requires room { course.done ≤ most_edits }
    requires undoes { Undoes n course.touched (kept course) (held t.old) }
    ensures loans { SameLoans t.old t.new }
    ensures tables { held t.new ≡ filled scale most_ways n (undo (kept course) (held t.old).layout) }
{
    let set = course.touched;
    put_costs(&course.changes[..course.done], t.cost);
    let passing = t.passing;
    put_rows(n, set, t.cost, passing, t.time, t.ways, t.share, t.score);
}
