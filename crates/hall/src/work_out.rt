// Work out: the tables of a brought cost table.
ghost use Rattle.book.specs.Call.{work_out, Done};
ghost use Rattle.book.specs.Contract.{found_layout, these, found, left_beside, of_refusal, Inside};

use super::door::door;
use book::Refusal;
use book::lent::Lent;
use cells::{costs, scores};
use tables::fill_all::fill_all;
use tables::measures;

// Work out behind the door: test 5, and the tables.
fn fill_tables(
    n: usize,
    cost: &[u32],
    passing: &[u32],
    time: &mut [u32],
    ways: &mut [u32],
    share: &mut [u64],
    score: &mut [u64],
) -> Result<(), Refusal>
    requires { Inside n (these cost.now passing.now time.old ways.old share.old score.old) }
    ensures { Done (record { n = n; ask = work_out (found_layout cost.now passing.now) }) (found cost.now passing.now time.old ways.old share.old score.old) (left_beside cost.now passing.now time.new ways.new share.new score.new) (of_refusal result) }
{
    if !costs::valid(n, cost) {
        return Err(Refusal::BadCost);
    }
    fill_all(measures::present(), n, cost, passing, time, ways, share);
    scores::sum_scores(n, share, score);
    Ok(())
}

pub fn work_out(
    n: u64,
    cost: &[u32],
    passing: &[u32],
    time: &mut [u32],
    ways: &mut [u32],
    share: &mut [u64],
    score: &mut [u64],
) -> Result<(), Refusal>
    ensures { Done (record { n = n; ask = work_out (found_layout cost.now passing.now) }) (found cost.now passing.now time.old ways.old share.old score.old) (left_beside cost.now passing.now time.new ways.new share.new score.new) (of_refusal result) }
{
    let t = Lent {
        cost,
        passing,
        time,
        ways,
        share,
        score,
    };
    door(n, &t)?;
    fill_tables(n as usize, cost, passing, time, ways, share, score)
}
