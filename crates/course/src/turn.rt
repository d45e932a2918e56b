// The turn of one edit of a list, on the tables that its predecessors left.
ghost use Rattle.std.specs.Prelude.{◌≡◌, ◌+◌, [], ◌∷◌, ◌++◌, ◌<◌, ◌≤◌};
ghost use Rattle.std.specs.Int.Bits.{bit_or};
ghost use Rattle.book.specs.Hall.{most_stops, most_edits};
ghost use Rattle.book.specs.Contract.{held, SameLoans, Audited};
ghost use Rattle.course.specs.Promise.{kept, change_of, Turned};

use super::{Change, Course};
use book::lent::LentMut;
use book::{Edit, Edited, Refusal};
use edits::audited::edit_audited;

// The course after an accepted edit.
fn note(n: u64, e: Edit, edited: Edited, course: &mut Course)
    requires { (course.old.done < most_edits) × (e.u < n) × (e.v < n) × (n ≤ most_stops) }
    ensures touched { course.new.touched ≡ bit_or course.old.touched edited.touched }
    ensures done { course.new.done ≡ course.old.done + 1 }
    ensures changes { kept course.new ≡ kept course.old ++ change_of n e edited ∷ [] }
{
    course.touched |= edited.touched;
    course.changes[course.done] = Change {
        spot: (e.u * n + e.v) as u32,
        cost: edited.before,
    };
    course.done += 1;
}

// The edit, noted where it is accepted.
pub fn turn(n: u64, e: Edit, course: &mut Course, t: &mut LentMut<'_>) -> Result<(), Refusal>
    requires audited { Audited n (held t.old) }
    requires room { course.old.done < most_edits }
    ensures loans { SameLoans t.old t.new }
    ensures turned { Turned n e course.old course.new (held t.old) (held t.new) result }
{
    let edited = edit_audited(n, e, t)?;
    note(n, e, edited, course);
    Ok(())
}
