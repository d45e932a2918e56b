// The choice of a call and its arguments.
use super::ask::Ask;
use super::chance::Chance;
use super::costs::Costs;
use super::ends::ends;
use super::ground::evening;
use super::lent::bytes;
use super::new_costs::new_costs;
use super::pair::Pair;
use super::passing::Passing;
use super::price::cost_of;
use super::small_hall::Hall;
use super::{draft, passing};
use book::{Edit, Kind};
use calls::answer::Answer;
use calls::call::{Act, Call, Name};
use calls::lengths::{Odd, Table};
use calls::list::List;
use calls::tables::cells;

// How many of 34 draws give each call; the last one gives an empty hall or an insert.
const NAMES: [(u64, Name); 12] = [
    (5, Name::Edit(Kind::Insert)),
    (4, Name::Edit(Kind::Cheapen)),
    (4, Name::Edit(Kind::Raise)),
    (4, Name::Edit(Kind::Delete)),
    (2, Name::EditList),
    (3, Name::WorkOut),
    (2, Name::Audit),
    (2, Name::ImageWrite),
    (3, Name::ImageRead),
    (1, Name::ImageCheck),
    (1, Name::MoveOver),
    (2, Name::ListRoutes),
];

const ODDS: [Odd; 12] = [
    Odd::Short(Table::Cost),
    Odd::Short(Table::Time),
    Odd::Short(Table::Ways),
    Odd::Short(Table::Share),
    Odd::Short(Table::Score),
    Odd::Short(Table::Passing),
    Odd::Long(Table::Cost),
    Odd::Long(Table::Time),
    Odd::Long(Table::Ways),
    Odd::Long(Table::Share),
    Odd::Long(Table::Score),
    Odd::Long(Table::Passing),
];

// The number of stops of a hall, one to seven. Only halls of six or seven have crowded pairs, so that most are such.
pub fn stops(chance: &mut Chance) -> u64 {
    match chance.draw(20) {
        0 | 1 => 1 + chance.draw(5),
        2..=4 => 6,
        _ => 7,
    }
}

// Which call comes next.
pub fn name(chance: &mut Chance) -> Name {
    let name = chance.weighed(34, &NAMES, Name::EmptyHall);
    match name {
        Name::EmptyHall if !chance.once_in(4) => Name::Edit(Kind::Insert),
        _ => name,
    }
}

// The n of a call: mostly that of the tables.
fn size(chance: &mut Chance, stops: u64) -> u64 {
    if !chance.once_in(16) {
        return stops;
    }
    match chance.draw(4) {
        0 => 0,
        1 => 65,
        2 => u64::MAX,
        _ => if stops < 7 { stops + 1 } else { 6 },
    }
}

// Which table is lent at a wrong length: mostly none.
fn odd(chance: &mut Chance) -> Option<Odd> {
    if !chance.once_in(16) {
        return None;
    }
    Some(chance.pick(&ODDS))
}

// Whether a new hall is to be even: half of the small ones, and most of those that can have crowded pairs.
pub fn to_be_even(chance: &mut Chance, stops: u64) -> bool {
    if 5 < stops {
        return !chance.once_in(12);
    }
    chance.once_in(2)
}

// Sometimes puts in an entry that work out refuses.
fn blemish(chance: &mut Chance, costs: &mut Costs) {
    let stops = costs.stops;
    if chance.once_in(8) {
        let s = chance.draw(stops);
        costs.put(Pair::new(s, s), 1 + chance.draw(3));
    }
    if chance.once_in(8) {
        let place = chance.draw(cells(stops) as u64);
        costs.put(Pair::of_place(place, stops), 65536);
    }
}

// A cost table that work out is to take, or sometimes not.
pub fn brought(chance: &mut Chance, stops: u64, even: bool) -> Costs {
    let mut costs = new_costs(chance, stops, even);
    blemish(chance, &mut costs);
    costs
}

// The cost table of a work out, which goes with these passing times; no other call brings one.
fn table(chance: &mut Chance, name: Name, passing: &Passing) -> Option<Costs> {
    if !matches!(name, Name::WorkOut) {
        return None;
    }
    let even = to_be_even(chance, passing.stops);
    let costs = brought(chance, passing.stops, even);
    Some(passing.matched(chance, costs))
}

// What the call asks for, but for a list, which has no edits yet, and its n. Three of four edits of a large hall make it more even.
fn numbered(chance: &mut Chance, name: Name, costs: &Costs, ties: &Costs) -> Call {
    let even = !chance.once_in(4);
    if even && matches!(name, Name::Edit(_)) && 5 < costs.stops {
        let edit = evening(chance, costs, ties);
        let n = size(chance, costs.stops);
        return Call {
            n,
            act: Act::Edit(edit),
        };
    }
    let ends = ends(chance, name, costs);
    let n = size(chance, costs.stops);
    let cost = cost_of(chance, name, ties.at(ends), costs.at(ends));
    let act = name.act(ends.u, ends.v, cost, List::new());
    Call { n, act }
}

// The call with its arguments, on a hall.
pub fn ask(chance: &mut Chance, name: Name, hall: &Hall) -> Ask {
    let ties = hall.passing.ties();
    let mut call = numbered(chance, name, &hall.costs, &ties);
    let passing = passing::brought(chance, name, &hall.passing);
    let lent = passing.unwrap_or(hall.passing);
    let buffer = bytes(chance, &call.act, &Hall::new(hall.costs, lent));
    let costs = table(chance, name, &lent);
    if matches!(name, Name::EditList) {
        call.act = Act::EditList(draft::list(chance, &hall.costs, &ties));
    }
    Ask {
        call,
        odd: odd(chance),
        costs,
        passing,
        buffer,
    }
}

fn opposite(kind: Kind) -> Kind {
    match kind {
        Kind::Insert => Kind::Delete,
        Kind::Cheapen => Kind::Raise,
        Kind::Raise => Kind::Cheapen,
        Kind::Delete => Kind::Insert,
    }
}

// The edit that reverses an accepted one: the opposite one of the same link, at the cost that it answered.
pub fn reversal(ask: &Ask, edit: &Edit, answer: &Answer) -> Ask {
    let mut next = *ask;
    next.call.act = Act::Edit(Edit {
        kind: opposite(edit.kind),
        u: edit.u,
        v: edit.v,
        cost: answer.before,
    });
    next
}
