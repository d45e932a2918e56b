// A list of edits as numbers, four for each edit: its kind, its two stops and its cost. So the C face lends it.
#![tactic(auto)]

ghost use Rattle.std.specs.Prelude.{◌≡◌, ◌+◌, ◌*◌, ◌≤◌, cond, Some, None, length};
ghost use Rattle.book.specs.Call.{edit_list, Done};
ghost use Rattle.book.specs.Contract.{held, SameLoans, of_list};
ghost use Rattle.flat_list.specs.Flat.{kind_of, no_kind, edit_at, edits_of, cut_short, first_other, place_of};

use book::lent::LentMut;
use book::limits::Hall;
use book::{Edit, Kind, ListEdited, ListRefused};
use course::edit_each;

// The numbers of the kinds. 0 is none.
pub const INSERT: u64 = 1;

pub const CHEAPEN: u64 = 2;

pub const RAISE: u64 = 3;

pub const DELETE: u64 = 4;

// The kind of a number of the C face.
fn kind_of(number: u64) -> Option<Kind>
    ensures { result ≡ cond (no_kind number) None (Some (kind_of number)) }
{
    match number {
        INSERT => Some(Kind::Insert),
        CHEAPEN => Some(Kind::Cheapen),
        RAISE => Some(Kind::Raise),
        DELETE => Some(Kind::Delete),
        _ => None,
    }
}

// Edit i of the list. A kind that is none counts as delete.
fn edit_at(list: &[u64], i: usize) -> Edit
    requires { 4 * i + 4 ≤ length list.now }
    ensures { result ≡ edit_at list.now i }
{
    let at = 4 * i;
    Edit {
        kind: kind_of(list[at]).unwrap_or(Kind::Delete),
        u: list[at + 1],
        v: list[at + 2],
        cost: list[at + 3],
    }
}

// The place of a last edit that has fewer than four numbers, among those that have a turn.
fn cut_short(numbers: usize) -> Option<usize>
    ensures { result ≡ place_of (cut_short numbers) }
{
    let whole = numbers / 4;
    if (0 < numbers % 4) & (whole < Hall::EDITS) {
        Some(whole + 1)
    } else {
        None
    }
}

// The place of the first edit, among those that have a turn, that is cut short or whose kind is none. The loop goes over places, as its
// definition does; the place is what it gives.
pub fn other_kind(list: &[u64]) -> Option<usize>
    ensures { result ≡ place_of (first_other list.now) }
{
    let turns = Hall::EDITS.min(list.len() / 4);
    for i in 0..turns {
        if kind_of(list[4 * i]).is_none() {
            return Some(i + 1);
        }
    }
    cut_short(list.len())
}

// The list, without a last edit that is cut short. A kind that is none counts as delete: its callers look for both first.
pub fn edit_flat(n: u64, list: &[u64], t: &mut LentMut<'_>) -> Result<ListEdited, ListRefused>
    ensures loans { SameLoans t.old t.new }
    ensures done { Done (record { n = n; ask = edit_list (edits_of list.now) }) (held t.old) (held t.new) (of_list result) }
{
    edit_each(n, list.len() / 4, |i| edit_at(list, i), t)
}
