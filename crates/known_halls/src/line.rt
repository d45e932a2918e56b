// The longest line: 64 stops, each with a link of the largest cost to the next.
use super::change::{cheapen, raise};
use super::report::{Inserts, image_check};
use super::stops::Hall;
use super::{listed, text};
use book::Edit;
use calls::entries::at;
use std::io;

pub fn links() -> Hall {
    (0u64..63).fold(Hall::empty(64), |hall, u| {
        hall.with_link(u, u.wrapping_add(1), 65535)
    })
}

// Inserts the first links of a line.
pub fn insert_links(count: u64, before: Inserts) -> Inserts {
    (0..count).fold(before, |inserts, u| {
        inserts.with(u, u.wrapping_add(1), 65535)
    })
}

pub fn some_scores(rt: &impl Print, hall: &Hall) -> io::Result<()> {
    print!(rt; "scores of stops 0, 1, 31, 32, 63:")?;
    for v in [0, 1, 31, 32, 63] {
        print!(rt; " {}", at(&hall.tables.score, v))?;
    }
    println!(rt)
}

// By work out, and by inserts.
fn made(rt: &impl Print) -> io::Result<Hall> {
    let hall = links().worked(rt)?;
    hall.pair(rt, 63)?;
    some_scores(rt, &hall)?;
    let empty = Hall::empty(64).empty_hall(rt, "inserts: empty hall ")?;
    insert_links(63, Inserts::none(empty)).reached(rt, &hall)?;
    Ok(hall)
}

// An edit of the link in the middle; says whether the tables are those wanted then.
fn edited(
    rt: &impl Print,
    name: &str,
    edit: Edit,
    before: &Hall,
    wanted: &Hall,
) -> io::Result<Hall> {
    let left = before.edit(rt, name, edit)?;
    left.same(rt, wanted)?;
    println!(rt)?;
    Ok(left)
}

// The link in the middle is run faster, and then slower until it costs what it did.
fn slowed(rt: &impl Print, hall: &Hall) -> io::Result<()> {
    let raise = raise(31, 32, 65535);
    let same = edited(rt, "raise 31 32 to 65535: ", raise, hall, hall)?;
    let cheapen = cheapen(31, 32, 1);
    let faster = edited(rt, "cheapen 31 32 to 1: ", cheapen, &same, hall)?;
    edited(rt, "raise 31 32 to 65535: ", raise, &faster, hall)?;
    Ok(())
}

// Its old tables; moved over they are to be those of today.
fn moved_over(rt: &impl Print, hall: &Hall) -> io::Result<()> {
    let left = listed::old(&links()).moved(rt, "old tables: move over ", hall)?;
    some_scores(rt, &left)
}

fn records(rt: &impl Print, image: &[u8; 264]) -> io::Result<()> {
    text::bytes(rt, "first record", &image[..4])?;
    text::bytes(rt, "last record", &image[248..252])?;
    text::bytes(rt, "trailer", &image[252..260])?;
    text::bytes(rt, "behind it", &image[260..])
}

// Writes the image into buffers of 264, 260 and 259 bytes that hold the byte 7.
fn stored(
    rt: &impl Print,
    hall: &Hall,
    long: &mut [u8; 264],
    exact: &mut [u8; 260],
) -> io::Result<()> {
    let mut short = [7u8; 259];
    hall.image_write(rt, "image write into 264 bytes: ", long)?;
    println!(rt)?;
    records(rt, long)?;
    hall.image_write(rt, "image write into 260 bytes: ", exact)?;
    println!(rt)?;
    hall.image_write(rt, "image write into 259 bytes: ", &mut short)?;
    println!(rt; ", bytes changed {}", text::changed(&short))
}

fn checked(rt: &impl Print, image: &[u8; 260], longer: &[u8; 264]) -> io::Result<()> {
    image_check(rt, "image check: 260 bytes ", image, 64)?;
    image_check(rt, ", 264 bytes ", longer, 64)?;
    image_check(rt, ", first 256 bytes ", &image[..256], 64)?;
    image_check(rt, ", last 256 bytes ", &image[4..], 64)?;
    image_check(rt, ", n = 63 ", image, 63)?;
    image_check(rt, ", n = 65 ", image, 65)?;
    println!(rt)
}

// Reads the image over an empty hall; its tables are to be those of the hall.
fn loaded(rt: &impl Print, image: &[u8], hall: &Hall) -> io::Result<()> {
    let empty = Hall::empty(64).empty_hall(rt, "over an empty hall ")?;
    let left = empty.image_read(rt, ": image read ", image)?;
    left.is_read(rt, hall)
}

pub fn longest(rt: &impl Print) -> io::Result<()> {
    let mut long = [7u8; 264];
    let mut exact = [7u8; 260];
    println!(rt; "a one-way line, 64 stops")?;
    let hall = made(rt)?;
    slowed(rt, &hall)?;
    moved_over(rt, &hall)?;
    stored(rt, &hall, &mut long, &mut exact)?;
    checked(rt, &exact, &long)?;
    loaded(rt, &exact, &hall)
}
