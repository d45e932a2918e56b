// Halls that move over: the lister's tables by the old scale, and the moving call on them.
use super::change::delete;
use super::listed;
use super::stops::Hall;
use super::ways::fan;
use std::io;

// The tables with the share of stop 1 in the routes from stop 0, and its score, larger by so much.
fn larger(share_by: u64, score_by: u64, hall: &Hall) -> Hall {
    let mut next = *hall;
    next.tables.share[1] = hall.tables.share[1].wrapping_add(share_by);
    next.tables.score[1] = hall.tables.score[1].wrapping_add(score_by);
    next
}

// Old tables that are not right.
fn not_moved(rt: &impl Print, old: &Hall) -> io::Result<()> {
    let more = larger(1, 0, old);
    more.moved(rt, "a share larger by 1: move over ", &more)?;
    let whole = larger(8398, 8398, old);
    whole.moved(
        rt,
        "a share and its score larger by 8398: move over ",
        &whole,
    )?;
    let other = larger(0, 1, old);
    other.moved(rt, "a score larger by 1: move over ", &other)?;
    Ok(())
}

// A moved hall goes on: moved again, and one of its links closed.
fn goes_on(rt: &impl Print, hall: &Hall) -> io::Result<()> {
    let same = hall.moved(rt, "again: move over ", hall)?;
    let left = same.edit(rt, "delete 12 13: ", delete(12, 13))?;
    left.audit(rt)?;
    println!(rt)?;
    left.middle(rt, 12, 13)
}

// 12 ways. Moved over, the tables are to be those of a work out.
pub fn most(rt: &impl Print) -> io::Result<()> {
    println!(rt; "12 ways moved over, 14 stops")?;
    let hall = fan(14, 13).worked(rt)?;
    let old = listed::old(&fan(14, 13));
    print!(rt; "old tables")?;
    old.audit(rt)?;
    println!(rt)?;
    old.middle(rt, 13, 13)?;
    not_moved(rt, &old)?;
    let left = old.moved(rt, "old tables: move over ", &hall)?;
    left.pair(rt, 13)?;
    left.middle(rt, 13, 13)?;
    goes_on(rt, &left)
}

// The old tables of a hall of ways by each stop between the first and the last; they are to stay.
fn not_over(rt: &impl Print, name: &str, n: u64, last: u64) -> io::Result<()> {
    let old = listed::old(&fan(n, last));
    old.moved(rt, name, &old)?;
    Ok(())
}

// One way more than the limit, as many as the old limit, and one more than that: with the entry 23 and no shares, or with all shares,
// which are cut to whole numbers. The old numbers have no crowded pairs.
pub fn too_many(rt: &impl Print) -> io::Result<()> {
    println!(rt; "13, 22 and 23 ways not moved over")?;
    not_over(rt, "13 ways: move over ", 15, 14)?;
    not_over(rt, "22 ways: move over ", 24, 23)?;
    not_over(rt, "23 ways: move over ", 25, 24)?;
    let all = listed::old_unlimited(&fan(25, 24));
    all.moved(rt, "23 ways with their shares: move over ", &all)?;
    let today = fan(15, 14).worked(rt)?;
    today.moved(rt, "13 ways, tables of today: move over ", &today)?;
    Ok(())
}

// No route has a stop between its ends, so that the old tables are the new ones.
pub fn none_between(rt: &impl Print) -> io::Result<()> {
    println!(rt; "no stop between, 3 stops")?;
    let brought = Hall::empty(3).with_link(0, 2, 65535).with_link(0, 1, 5);
    let hall = brought.worked(rt)?;
    let left = listed::old(&brought).moved(rt, "old tables: move over ", &hall)?;
    left.moved(rt, "again: move over ", &hall)?;
    Ok(())
}
