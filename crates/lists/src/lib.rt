// A list of edits, as one call, over a lent slice of structs.
#![tactic(auto)]

ghost use Rattle.book.specs.Call.{edit_list, Done};
ghost use Rattle.book.specs.Contract.{held, SameLoans, of_list};

use book::lent::LentMut;
use book::{Edit, ListEdited, ListRefused};
use course::edit_each;

pub fn edit_list(n: u64, list: &[Edit], t: &mut LentMut<'_>) -> Result<ListEdited, ListRefused>
    ensures loans { SameLoans t.old t.new }
    ensures done { Done (record { n = n; ask = edit_list list.now }) (held t.old) (held t.new) (of_list result) }
{
    edit_each(n, list.len(), |i| list[i], t)
}
