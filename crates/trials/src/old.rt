// Tables made with the old numbers: the lister's, by the old scale.
use super::chance::Chance;
use super::choose::brought;
use super::costs::Costs;
use super::hall_book::Book;
use super::take_over::{take_narrowed, take_over};
use calls::tables::{self, Tables, cells};

// Puts the tables of a book in front of others.
fn set(book: &Book, tables: &mut Tables) {
    let stops = book.stops();
    let count = cells(stops);
    book.hall.costs.put_into(tables);
    book.hall.passing.put_into(tables);
    take_narrowed(&book.time, count, &mut tables.time);
    take_narrowed(&book.ways, count, &mut tables.ways);
    take_over(&book.share, count, &mut tables.share);
    take_over(&book.score, tables::stops(stops), &mut tables.score);
}

// Puts the old tables of these costs, and passing times of 0, in front of others.
pub fn set_of_costs(costs: &Costs, tables: &mut Tables) {
    set(&Book::of_old(*costs), tables);
}

// The old tables of a drawn hall, with the entry 7 behind them. Some of its costs are not valid.
pub fn drawn(chance: &mut Chance, stops: u64) -> Tables {
    let even = chance.once_in(4);
    let mut tables = Tables::filled(7, 7);
    set_of_costs(&brought(chance, stops, even), &mut tables);
    tables
}
