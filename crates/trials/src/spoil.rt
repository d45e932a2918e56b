// Tables with an entry or two changed.
use super::chance::Chance;
use super::passing::too_large;
use calls::entries::{at, narrow, put};
use calls::lengths::Table;
use calls::tables::{Tables, cells};

// Another number in place of one of a table; one in six is the same in 16 bits.
fn strange(chance: &mut Chance, x: u64) -> u64 {
    match chance.draw(6) {
        0 => u64::MAX,
        1 => chance.draw(8),
        2 => x.wrapping_add(65536),
        _ => x.wrapping_add(1 + chance.draw(3)),
    }
}

// Another cost in place of one.
fn strange_cost(chance: &mut Chance) -> u32 {
    match chance.draw(10) {
        0 => 65536,
        1 => 65535,
        2 => u32::MAX,
        _ => chance.draw(7) as u32,
    }
}

// Another passing time in place of one.
fn strange_passing(chance: &mut Chance) -> u32 {
    let small = chance.draw(3) as u32;
    if chance.once_in(3) {
        too_large(chance)
    } else {
        small
    }
}

// Changes an entry of one of six tables, and now and then a passing time too. Another entry is drawn for each.
pub fn spoil(chance: &mut Chance, stops: u64, tables: &mut Tables) {
    let table = chance.pick(&Table::ALL);
    let both = chance.once_in(8);
    let i = chance.draw(cells(stops) as u64) as usize;
    let v = chance.draw(stops) as usize;
    let cost = strange_cost(chance);
    let time = strange(chance, at(&tables.time, i));
    let ways = strange(chance, at(&tables.ways, i));
    let share = strange(chance, at(&tables.share, i));
    let score = strange(chance, at(&tables.score, v));
    let passing = strange_passing(chance);
    match table {
        Table::Cost => put(&mut tables.cost, i, cost),
        Table::Time => put(&mut tables.time, i, narrow(time)),
        Table::Ways => put(&mut tables.ways, i, narrow(ways)),
        Table::Share => put(&mut tables.share, i, share),
        Table::Score => put(&mut tables.score, v, score),
        Table::Passing => {}
    }
    if both || table == Table::Passing {
        put(&mut tables.passing, v, passing);
    }
}
