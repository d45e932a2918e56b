// What an edit of one link must answer and leave.
use super::costs::{Costs, LARGEST};
use super::hall_book::Book;
use super::pair::Pair;
use super::small_hall::Hall;
use book::{Edit, Kind, Refusal};

// The link that an edit is of.
pub fn link(edit: &Edit) -> Pair {
    Pair::new(edit.u, edit.v)
}

// A cost that no link has, where the edit gives it one.
fn has_bad_cost(edit: &Edit) -> bool {
    !matches!(edit.kind, Kind::Delete) && (edit.cost == 0 || LARGEST < edit.cost)
}

// Refusals 4 to 8, of an edit in a hall with these costs.
pub fn test(edit: &Edit, costs: &Costs) -> Result<(), Refusal> {
    let link = link(edit);
    if !link.is_in(costs.stops) || link.is_same_stop() {
        return Err(Refusal::BadStop);
    }
    if has_bad_cost(edit) {
        return Err(Refusal::BadCost);
    }
    let present = costs.at(link);
    match edit.kind {
        Kind::Insert if present != 0 => Err(Refusal::LinkPresent),
        Kind::Insert => Ok(()),
        _ if present == 0 => Err(Refusal::LinkAbsent),
        Kind::Cheapen if present <= edit.cost => Err(Refusal::CostWrongSide),
        Kind::Raise if edit.cost <= present => Err(Refusal::CostWrongSide),
        _ => Ok(()),
    }
}

// Gives the link the cost that an accepted edit leaves.
pub fn apply(edit: &Edit, costs: &mut Costs) {
    let cost = match edit.kind {
        Kind::Delete => 0,
        _ => edit.cost,
    };
    costs.put(link(edit), cost);
}

// What an accepted edit leaves: what the link cost before it, the sources that it touches, and the book after it.
#[derive(Clone, Copy)]
pub struct Edited {
    pub before: u64,
    pub touched: u64,
    pub book: Book,
}

// What becomes of an edit that fails none of the tests 1, 2, 13 and 3.
pub fn judged(edit: &Edit, book: &Book) -> Result<Edited, Refusal> {
    let hall = book.hall;
    test(edit, &hall.costs)?;
    let mut costs = hall.costs;
    apply(edit, &mut costs);
    let touched = lister::touched(
        &hall.costs.table,
        &costs.table,
        &hall.passing.times,
        hall.stops(),
        edit.u,
        edit.v,
    );
    Ok(Edited {
        before: hall.costs.at(link(edit)),
        touched,
        book: Book::of(Hall::new(costs, hall.passing)),
    })
}
