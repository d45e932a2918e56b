// The moving call: the tables of a hall that was made by the old limit of ways and the old scale become those of the present ones.
#![tactic(auto)]

ghost use Rattle.std.specs.Prelude.{◌≡◌};
ghost use Rattle.book.specs.Hall.{divided};
ghost use Rattle.book.specs.Call.{move_over, Done};
ghost use Rattle.book.specs.Contract.{found_unpassed, left_shares, of_refusal};

use book::Refusal;
use book::lent::Lent;
use book::limits::Hall;
use cells::costs;
use hall::audit::audit_by;
use links::measure::Measure;

// Divides every entry by the quotient of the two scales.
fn divide(table: &mut [u64])
    ensures { table.new ≡ divided table.old }
{
    for entry in table.iter_mut() {
        *entry /= Hall::OLD_PER_NEW;
    }
}

// Costs, times and ways are the same by both scales, and only read. Halls of the old scale have no passing times: each is 0. Nor have they a
// pair with more than 22 ways: behind the audit by the old limit stands the test that no entry of ways is above it.
pub fn move_over(
    n: u64,
    cost: &[u32],
    time: &[u32],
    ways: &[u32],
    share: &mut [u64],
    score: &mut [u64],
) -> Result<(), Refusal>
    ensures { Done (record { n = n; ask = move_over }) (found_unpassed n cost.now time.now ways.now share.old score.old) (left_shares n cost.now time.now ways.now share.new score.new) (of_refusal result) }
{
    if !Hall::takes(n) {
        return Err(Refusal::BadSize);
    }
    let none = [0; Hall::STOPS];
    let t = Lent {
        cost,
        passing: &none[..n as usize],
        time,
        ways,
        share,
        score,
    };
    let old = Measure {
        limit: Hall::OLD_WAYS,
        scale: Hall::OLD_SCALE,
    };
    audit_by(old, n, &t)?;
    if !costs::within(Hall::OLD_WAYS, ways) {
        return Err(Refusal::BadTables);
    }
    if !costs::within(Hall::WAYS, ways) {
        return Err(Refusal::TooManyWays);
    }
    divide(share);
    divide(score);
    Ok(())
}
