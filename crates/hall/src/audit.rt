// Audit: whether five tables are those of their hall.
ghost use Rattle.std.specs.Prelude.{◌≡◌};
ghost use Rattle.book.specs.Hall.{sized, valid_passing, right as is_right};
ghost use Rattle.book.specs.Call.{Accepted, audit, chain, Done};
ghost use Rattle.book.specs.Contract.{seen, of_refusal};

use super::door::door;
use book::Refusal;
use book::lent::Lent;
use links::measure::Measure;
use tables::measures;
use tables::right::right;

// Tests 1, 2, 13 and 3 by a limit of ways and a scale.
pub fn audit_by(measure: Measure, n: u64, t: &Lent<'_>) -> Result<(), Refusal>
    ensures { result ≡ chain n (sized n (seen t.now)) (valid_passing n t.now.passing.now) (is_right measure.scale measure.limit n (seen t.now)) Accepted }
{
    door(n, t)?;
    if !right(measure, n as usize, t) {
        return Err(Refusal::BadTables);
    }
    Ok(())
}

pub fn audit(n: u64, t: &Lent<'_>) -> Result<(), Refusal>
    ensures { Done (record { n = n; ask = audit }) (seen t.now) (seen t.now) (of_refusal result) }
{
    audit_by(measures::present(), n, t)
}
