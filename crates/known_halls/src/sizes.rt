// Halls that no call takes. Every byte is 7 at first, and every entry of 65 stops.
use super::change::{cheapen, delete, insert, raise};
use super::report::image_check;
use super::stops::Hall;
use super::{lists, quickest, text};
use calls::tables::Tables;
use std::io;

fn whole(rt: &impl Print, hall: &Hall) -> io::Result<Hall> {
    let empty = hall.empty_hall(rt, "empty hall ")?;
    let left = empty.work_out(rt, ", work out ")?;
    left.audit(rt)?;
    let moved = left.move_over(rt, ", move over ")?;
    println!(rt)?;
    Ok(moved)
}

fn edits(rt: &impl Print, hall: &Hall) -> io::Result<Hall> {
    let more = hall.edit(rt, "insert 0 1: ", insert(0, 1, 5))?;
    println!(rt)?;
    let cheaper = more.edit(rt, "cheapen 0 1: ", cheapen(0, 1, 5))?;
    println!(rt)?;
    let dearer = cheaper.edit(rt, "raise 0 1: ", raise(0, 1, 5))?;
    println!(rt)?;
    let less = dearer.edit(rt, "delete 0 1: ", delete(0, 1))?;
    println!(rt)?;
    let left = less.list(rt, "33 inserts: ", lists::inserts(33))?;
    println!(rt)?;
    Ok(left)
}

fn images(rt: &impl Print, hall: &Hall, buffer: &mut [u8]) -> io::Result<Hall> {
    let image = [65u8, 1, 0, 0, 0, 0, 0, 0];
    hall.image_write(rt, "image write into 260 bytes: ", buffer)?;
    println!(rt)?;
    quickest::listed(rt, hall, 0, 1, 260, buffer)?;
    let left = hall.image_read(rt, "image read ", &image)?;
    image_check(rt, ", image check ", &image, hall.n)?;
    println!(rt)?;
    Ok(left)
}

// All calls on tables that none takes; bytes and tables are to stay.
pub fn refused(rt: &impl Print, hall: &Hall) -> io::Result<()> {
    let mut buffer = [7u8; 260];
    let edited = edits(rt, &whole(rt, hall)?)?;
    let left = images(rt, &edited, &mut buffer)?;
    print!(rt; "bytes changed {}", text::changed(&buffer))?;
    left.same(rt, hall)?;
    println!(rt)
}

// A hall of 65 stops.
pub fn too_large(rt: &impl Print) -> io::Result<()> {
    println!(rt; "65 stops")?;
    let hall = Hall {
        n: 65,
        tables: Tables::filled(7, 7),
    };
    refused(rt, &hall)
}
