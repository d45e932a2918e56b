// Halls with crowded pairs: every stop has links to all later ones, of the cost of their distance, so that all routes forward tie.
use super::change::{delete, insert, raise};
use super::stops::Hall;
use super::sums::{forward, with_ways};
use super::{listed, quickest};
use std::io;

// The pair from stop 0 to stop 5 and the scores of the stops between.
fn told(rt: &impl Print, hall: &Hall) -> io::Result<()> {
    hall.pair(rt, 5)?;
    for v in 1..5 {
        hall.stop(rt, v)?;
    }
    Ok(())
}

// Of 16 ways 15 are left: row 0 is touched, and looks the same, so that the cost is the only entry that differs.
fn same_row(rt: &impl Print, hall: &Hall) -> io::Result<Hall> {
    let left = hall.edited(rt, "delete 0 5: ", delete(0, 5), hall)?;
    left.edited(rt, "insert 0 5: ", insert(0, 5, 5), hall)?;
    hall.edited(rt, "raise 0 5 to 6: ", raise(0, 5, 6), hall)?;
    Ok(left)
}

// 14 are left, and row 0 looks the same once more, but row 1 does not; and then 12, so that the pair has its shares.
fn other_rows(rt: &impl Print, hall: &Hall) -> io::Result<()> {
    let fourteen = hall.edited(rt, "delete 1 5: ", delete(1, 5), hall)?;
    let twelve = fourteen.edited(rt, "delete 2 5: ", delete(2, 5), &fourteen)?;
    told(rt, &twelve)?;
    twelve.edited(rt, "insert 2 5: ", insert(2, 5, 3), &fourteen)?;
    Ok(())
}

pub fn looks_the_same(rt: &impl Print) -> io::Result<()> {
    println!(rt; "16 ways, 6 stops")?;
    let hall = forward(6).worked(rt)?;
    told(rt, &hall)?;
    other_rows(rt, &same_row(rt, &hall)?)
}

// An audit of tables that are not right, and an edit on them, which are to stay.
fn refused(rt: &impl Print, name: &str, hall: &Hall) -> io::Result<()> {
    print!(rt; "{name}")?;
    hall.audit(rt)?;
    println!(rt)?;
    let left = hall.edit(rt, "delete 0 5: ", delete(0, 5))?;
    left.same(rt, hall)?;
    println!(rt)
}

// Other entries in place of 13, and the shares that the crowded pair would have.
pub fn not_right(rt: &impl Print) -> io::Result<()> {
    println!(rt; "16 ways listed otherwise, 6 stops")?;
    let hall = forward(6).worked(rt)?;
    refused(rt, "12 in place of 13", &with_ways(5, 12, &hall))?;
    refused(rt, "14 in place of 13", &with_ways(5, 14, &hall))?;
    refused(rt, "16 in place of 13", &with_ways(5, 16, &hall))?;
    refused(rt, "65549 in place of 13", &with_ways(5, 65549, &hall))?;
    let all = listed::unlimited(&hall);
    refused(rt, "16 with their shares", &all)?;
    refused(rt, "13 with the shares of 16", &with_ways(5, 13, &all))
}

// 32 ways from stop 0 to stop 6, and 16 from 0 to 5 and from 1 to 6. A list of the 32 would have 177 bytes. The entry for 0 and 13,
// if there were such a stop, would be that of 1 and 6.
fn not_listed(rt: &impl Print, hall: &Hall) -> io::Result<()> {
    quickest::shown(rt, hall, 0, 6, 177)?;
    quickest::shown(rt, hall, 0, 6, 176)?;
    quickest::shown(rt, hall, 0, 5, 0)?;
    quickest::shown(rt, hall, 1, 6, 81)?;
    quickest::shown(rt, hall, 0, 13, 81)?;
    quickest::shown(rt, hall, 4294967296, 6, 81)
}

// Crowded pairs do not stand in the way of others: 8 ways each from 0 to 4 and from 2 to 6.
pub fn routes(rt: &impl Print) -> io::Result<()> {
    println!(rt; "the quickest routes beside 32 ways, 7 stops")?;
    let hall = forward(7).worked(rt)?;
    hall.pair(rt, 6)?;
    not_listed(rt, &hall)?;
    quickest::shown(rt, &hall, 0, 4, 37)?;
    quickest::shown(rt, &hall, 0, 4, 36)?;
    quickest::shown(rt, &hall, 2, 6, 40)
}

// The image of the hall of 32 ways, which has 21 links, read over an empty hall.
pub fn image(rt: &impl Print) -> io::Result<()> {
    let mut image = [7u8; 92];
    println!(rt; "the image of 32 ways, 7 stops")?;
    let hall = forward(7).worked(rt)?;
    hall.image_write(rt, "image write into 92 bytes: ", &mut image)?;
    println!(rt)?;
    let empty = Hall::empty(7).empty_hall(rt, "over an empty hall ")?;
    let left = empty.image_read(rt, ": image read ", &image)?;
    left.is_read(rt, &hall)
}
