// Halls of many ways: from stop 0 to the last stop by each stop between, in two links of cost 5.
use super::change::{cheapen, delete, insert, raise};
use super::quickest;
use super::report::Inserts;
use super::stops::Hall;
use std::io;

// The links of all ways, in tables of entries 0.
pub fn fan(n: u64, last: u64) -> Hall {
    (1..last).fold(Hall::empty(n), |hall, m| {
        hall.with_link(0, m, 5).with_link(m, last, 5)
    })
}

// Inserts the ways by the stops from 1 up to `past`.
fn insert_ways(last: u64, past: u64, before: Inserts) -> Inserts {
    (1..past).fold(before, |inserts, m| inserts.with(0, m, 5).with(m, last, 5))
}

fn start(rt: &impl Print, n: u64) -> io::Result<Inserts> {
    let empty = Hall::empty(n).empty_hall(rt, "inserts: empty hall ")?;
    Ok(Inserts::none(empty))
}

// 12 ways.
pub fn most(rt: &impl Print) -> io::Result<()> {
    println!(rt; "12 ways, 14 stops")?;
    let hall = fan(14, 13).worked(rt)?;
    hall.pair(rt, 13)?;
    hall.middle(rt, 13, 13)?;
    insert_ways(13, 13, start(rt, 14)?).reached(rt, &hall)
}

// 12 ways and the first link of one more.
fn nearly(rt: &impl Print) -> io::Result<Hall> {
    let brought = fan(15, 14).with_link(13, 14, 0);
    let hall = brought.work_out(rt, "but for its last link: work out ")?;
    hall.audit(rt)?;
    println!(rt)?;
    hall.pair(rt, 14)?;
    hall.middle(rt, 13, 14)?;
    hall.stop(rt, 13)?;
    Ok(hall)
}

// A work out of all 13: the pair is crowded.
fn at_once(rt: &impl Print, hall: &Hall) -> io::Result<Hall> {
    let left = hall.with_link(13, 14, 5).worked(rt)?;
    left.pair(rt, 14)?;
    left.middle(rt, 14, 14)?;
    Ok(left)
}

// The 13th way by inserts, and out again, which gives the 12 others their shares back.
fn by_inserts(rt: &impl Print, hall: &Hall, all: &Hall) -> io::Result<()> {
    let before = insert_ways(14, 13, start(rt, 15)?).with(0, 13, 5);
    before.reached(rt, hall)?;
    let left = before
        .hall
        .edited(rt, "insert 13 14: ", insert(13, 14, 5), all)?;
    let back = left.edited(rt, "delete 13 14: ", delete(13, 14), hall)?;
    back.middle(rt, 13, 14)
}

// No list of the crowded pair's routes is written, which would have 53 bytes. From a middle stop there is one way.
fn not_listed(rt: &impl Print, hall: &Hall) -> io::Result<()> {
    quickest::shown(rt, hall, 0, 14, 53)?;
    quickest::shown(rt, hall, 0, 14, 0)?;
    quickest::shown(rt, hall, 0, 15, 0)?;
    quickest::shown(rt, hall, 13, 14, 4)
}

pub fn one_more(rt: &impl Print) -> io::Result<()> {
    println!(rt; "a 13th way, 15 stops")?;
    let hall = nearly(rt)?;
    let all = at_once(rt, &hall)?;
    by_inserts(rt, &hall, &all)?;
    not_listed(rt, &all)
}

// 13 ways of time 10 and a link of 9.
fn beside(rt: &impl Print) -> io::Result<Hall> {
    let hall = fan(15, 14).with_link(0, 14, 9).worked(rt)?;
    hall.pair(rt, 14)?;
    hall.middle(rt, 14, 14)?;
    let first = start(rt, 15)?.with(0, 14, 9);
    insert_ways(14, 14, first).reached(rt, &hall)?;
    Ok(hall)
}

// Deletes the link of 9, which leaves a crowded pair, and inserts it again.
fn closed(rt: &impl Print, hall: &Hall) -> io::Result<Hall> {
    let left = hall.edited(rt, "delete 0 14: ", delete(0, 14), hall)?;
    left.pair(rt, 14)?;
    left.middle(rt, 14, 14)?;
    left.edited(rt, "insert 0 14: ", insert(0, 14, 9), hall)?;
    Ok(left)
}

// Deletes a link of the last way, and then the link of 9; and the same the other way round, behind the link of 9.
fn closed_with_another(rt: &impl Print, hall: &Hall, crowded: &Hall) -> io::Result<()> {
    let less = hall.edited(rt, "delete 13 14: ", delete(13, 14), hall)?;
    let left = less.edited(rt, "delete 0 14: ", delete(0, 14), &less)?;
    left.pair(rt, 14)?;
    left.middle(rt, 13, 14)?;
    left.stop(rt, 13)?;
    crowded.edited(rt, "delete 0 14, delete 13 14: ", delete(13, 14), &left)?;
    Ok(())
}

pub fn beside_a_link(rt: &impl Print) -> io::Result<()> {
    println!(rt; "13 ways of time 10 beside a link of 9, 15 stops")?;
    let hall = beside(rt)?;
    closed_with_another(rt, &hall, &closed(rt, &hall)?)
}

// Raises the link from the first stop of 14 to the last; says whether the tables stay.
fn raised(rt: &impl Print, name: &str, cost: u64, hall: &Hall) -> io::Result<Hall> {
    hall.edited(rt, name, raise(0, 13, cost), hall)
}

// Raises that are refused: to the present cost and past the largest.
fn not_raised(rt: &impl Print, hall: &Hall) -> io::Result<Hall> {
    let equal = raised(rt, "raise 0 13 to 9: ", 9, hall)?;
    raised(rt, "raise 0 13 to 65536: ", 65536, &equal)
}

// A raise to the time of the 12 ways: the link is one more, and the pair crowded.
fn tied(rt: &impl Print, hall: &Hall) -> io::Result<Hall> {
    let left = raised(rt, "raise 0 13 to 10: ", 10, hall)?;
    left.pair(rt, 13)?;
    left.middle(rt, 13, 13)?;
    Ok(left)
}

// And back, in two steps.
fn cheapened(rt: &impl Print, slower: &Hall, equal: &Hall, hall: &Hall) -> io::Result<()> {
    slower.edited(rt, "cheapen 0 13 to 10: ", cheapen(0, 13, 10), equal)?;
    equal.edited(rt, "cheapen 0 13 to 9: ", cheapen(0, 13, 9), hall)?;
    Ok(())
}

pub fn worn_link(rt: &impl Print) -> io::Result<()> {
    println!(rt; "12 ways of time 10 beside a link of 9 that is raised, 14 stops")?;
    let hall = fan(14, 13).with_link(0, 13, 9).worked(rt)?;
    hall.pair(rt, 13)?;
    let equal = tied(rt, &not_raised(rt, &hall)?)?;
    let slower = raised(rt, "raise 0 13 to 11: ", 11, &equal)?;
    slower.pair(rt, 13)?;
    slower.middle(rt, 13, 13)?;
    cheapened(rt, &slower, &equal, &hall)?;
    let unused = raised(rt, "raise 0 13 to 65535: ", 65535, &slower)?;
    unused.pair(rt, 13)
}
