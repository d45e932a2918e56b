// An edit of any tables: it audits them first.
ghost use Rattle.book.specs.Call.{edit, Done};
ghost use Rattle.book.specs.Contract.{held, SameLoans, of_edit};

use super::audited::edit_audited;
use book::lent::LentMut;
use book::{Edit, Edited, Refusal};
use hall::audit::audit;

pub fn edit(n: u64, e: Edit, t: &mut LentMut<'_>) -> Result<Edited, Refusal>
    ensures loans { SameLoans t.old t.new }
    ensures done { Done (record { n = n; ask = edit e }) (held t.old) (held t.new) (of_edit result) }
{
    audit(n, &t.view())?;
    edit_audited(n, e, t)
}
