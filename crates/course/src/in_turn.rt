// The loop over a list of edits.
ghost use Rattle.std.specs.Prelude.{◌≡◌, ℕ, List, ◌<◌, ◌≤◌};
ghost use Rattle.book.specs.Hall.{most_edits};
ghost use Rattle.book.specs.Call.{edit_list, Done};
ghost use Rattle.book.specs.Contract.{seen, held, SameLoans, of_list};
ghost use Rattle.book.specs.declared.Edit.{Edit};
ghost use Rattle.course.specs.Promise.{admits, kept, Lists, restored, Undoes};

use super::back::put_back;
use super::turn::turn;
use super::{Change, Course};
use book::lent::{Lent, LentMut};
use book::limits::Hall;
use book::{Edit, ListEdited, ListRefused, Refusal};
use hall::audit::audit;

// Tests 1, 2, 13, 3 and 12.
fn admit(n: u64, length: usize, t: &Lent<'_>) -> Result<(), Refusal>
    ensures { result ≡ admits n length (seen t.now) }
{
    audit(n, t)?;
    if Hall::EDITS < length {
        return Err(Refusal::ListTooLong);
    }
    Ok(())
}

// The tables of before a refused list: put back, unless no edit was made.
fn restore(n: u64, course: Course, t: &mut LentMut<'_>)
    requires room { course.done ≤ most_edits }
    requires undoes { Undoes n course.touched (kept course) (held t.old) }
    ensures loans { SameLoans t.old t.new }
    ensures tables { held t.new ≡ restored n course (held t.old) }
{
    if course.done > 0 {
        put_back(n as usize, course, t);
    }
}

// A list of so many edits, each as `edit_at` gives it by its place, over which the loop goes: an edit that is refused is told by its place.
// At the first refused edit the tables are put back.
pub fn edit_each<F: Fn(usize) -> Edit>(
    n: u64,
    length: usize,
    edit_at: F,
    t: &mut LentMut<'_>,
) -> Result<ListEdited, ListRefused>
    requires { (i : ℕ) → i < length → F.pre edit_at i }
    ensures loans { SameLoans t.old t.new }
    ensures done { (edits : List Edit) → Lists (F.post edit_at) length edits → Done (record { n = n; ask = edit_list edits }) (held t.old) (held t.new) (of_list result) }
{
    admit(n, length, &t.view())?;
    let mut course = Course {
        touched: 0,
        done: 0,
        changes: [Change::default(); 32],
    };
    for i in 0..length {
        let e = edit_at(i);
        if let Err(refusal) = turn(n, e, &mut course, t) {
            restore(n, course, t);
            return Err(ListRefused {
                refusal,
                place: i as u32 + 1,
            });
        }
    }
    Ok(ListEdited {
        touched: course.touched,
        rows: u64::count_ones(course.touched),
    })
}
