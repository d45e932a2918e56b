// Lists of edits: a shift change, the longest list and one that is too long, and a crowded pair in passing.
use super::change::{delete, insert};
use super::line;
use super::report::Inserts;
use super::stops::Hall;
use super::ways::fan;
use calls::list::List;
use std::io;

// Two ways from stop 0 to stop 3, by stop 1 and by stop 2.
pub fn diamond(rt: &impl Print) -> io::Result<Hall> {
    let first = Hall::empty(4).with_link(1, 3, 5).with_link(0, 1, 5);
    first.with_link(2, 3, 5).with_link(0, 2, 5).worked(rt)
}

// The link from 1 to 3 closes and one from 1 to 2 opens.
fn changed(rt: &impl Print, hall: &Hall) -> io::Result<Hall> {
    let list = List::of(&[delete(1, 3), insert(1, 2, 2)]);
    let left = hall.listed(rt, "delete 1 3, insert 1 2: ", list, hall)?;
    left.stop(rt, 1)?;
    left.stop(rt, 2)?;
    Ok(left)
}

// And back.
fn changed_back(rt: &impl Print, after: &Hall, hall: &Hall) -> io::Result<Hall> {
    let list = List::of(&[delete(1, 2), insert(1, 3, 5)]);
    after.listed(rt, "delete 1 2, insert 1 3: ", list, hall)
}

// A link that is deleted twice, and a list without edits.
fn not_changed(rt: &impl Print, hall: &Hall) -> io::Result<()> {
    let twice = List::of(&[insert(1, 2, 2), delete(1, 3), delete(1, 3)]);
    let left = hall.listed(rt, "insert 1 2, delete 1 3, delete 1 3: ", twice, hall)?;
    left.listed(rt, "no edits: ", List::new(), hall)?;
    Ok(())
}

pub fn shift_change(rt: &impl Print) -> io::Result<()> {
    println!(rt; "a shift change in one go, 4 stops")?;
    let hall = diamond(rt)?;
    let after = changed(rt, &hall)?;
    not_changed(rt, &changed_back(rt, &after, &hall)?)
}

// The first inserts of a line's links, of the largest cost.
pub fn inserts(count: u64) -> List {
    (0..count).fold(List::new(), |list, u| {
        list.with(insert(u, u.wrapping_add(1), 65535))
    })
}

// Lists that are refused: one of 33 edits, and one of 32 whose last edit is refused.
fn not_made(rt: &impl Print, hall: &Hall) -> io::Result<Hall> {
    let more = hall.listed(rt, "33 inserts: ", inserts(33), hall)?;
    let last = inserts(31).with(insert(0, 1, 1));
    more.listed(rt, "31 inserts, insert 0 1: ", last, hall)
}

// The same links by inserts; the tables are to be those of the hall.
fn one_by_one(rt: &impl Print, hall: &Hall) -> io::Result<()> {
    let empty = Hall::empty(34).empty_hall(rt, "inserts: empty hall ")?;
    line::insert_links(32, Inserts::none(empty)).reached(rt, hall)
}

pub fn most_edits(rt: &impl Print) -> io::Result<()> {
    println!(rt; "lists of 32 and 33 edits, 34 stops")?;
    let empty = Hall::empty(34).empty_hall(rt, "empty hall ")?;
    println!(rt)?;
    let still = not_made(rt, &empty)?;
    let hall = still.listed(rt, "32 inserts: ", inserts(32), &empty)?;
    hall.pair(rt, 32)?;
    hall.stop(rt, 16)?;
    one_by_one(rt, &hall)
}

// The link of 9 closes and opens again: the pair is crowded between.
fn crowded(rt: &impl Print, hall: &Hall) -> io::Result<()> {
    let list = List::of(&[insert(14, 0, 7), delete(0, 14), insert(0, 14, 9)]);
    hall.listed(rt, "insert 14 0, delete 0 14, insert 0 14: ", list, hall)?;
    Ok(())
}

// It closes, and then a link of the last way, so that 12 are left; or it closes twice.
fn closed(rt: &impl Print, hall: &Hall) -> io::Result<()> {
    let once = List::of(&[delete(0, 14)]);
    let both = once.with(delete(13, 14));
    let left = hall.listed(rt, "delete 0 14, delete 13 14: ", both, hall)?;
    left.pair(rt, 14)?;
    left.middle(rt, 13, 14)?;
    let twice = once.with(delete(0, 14));
    hall.listed(rt, "delete 0 14, delete 0 14: ", twice, hall)?;
    let crowded = hall.listed(rt, "delete 0 14: ", once, hall)?;
    crowded.pair(rt, 14)
}

// Before it closes and behind it a link of the last way does so too.
fn uncrowded(rt: &impl Print, hall: &Hall) -> io::Result<()> {
    let list = List::of(&[
        delete(13, 14),
        delete(0, 14),
        insert(0, 14, 9),
        insert(13, 14, 5),
    ]);
    let name = "delete 13 14, delete 0 14, insert 0 14, insert 13 14: ";
    hall.listed(rt, name, list, hall)?;
    Ok(())
}

pub fn in_passing(rt: &impl Print) -> io::Result<()> {
    println!(rt; "13 ways of time 10 in passing, 15 stops")?;
    let hall = fan(15, 14).with_link(0, 14, 9).worked(rt)?;
    crowded(rt, &hall)?;
    closed(rt, &hall)?;
    uncrowded(rt, &hall)
}
