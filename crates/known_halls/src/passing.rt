// Halls whose stops take time to pass.
use super::change::delete;
use super::report::Inserts;
use super::stops::Hall;
use super::ways::fan;
use super::{line, quickest, sizes};
use calls::tables::Tables;
use std::io;

// The hall with the same passing time at each of its stops.
fn each(time: u64, hall: Hall) -> Hall {
    (0..hall.n).fold(hall, |next, v| next.with_passing(v, time))
}

// Reads an image over an empty hall; says whether the tables are those wanted then.
fn read(
    rt: &impl Print,
    name: &str,
    image: &[u8],
    empty: &Hall,
    wanted: &Hall,
) -> io::Result<Hall> {
    let left = empty.image_read(rt, name, image)?;
    left.is_read(rt, wanted)?;
    Ok(left)
}

// The image of a line of 64 stops, read with its passing times and with passing times of 0.
fn read_back(rt: &impl Print, empty: &Hall, hall: &Hall) -> io::Result<()> {
    let mut image = [7u8; 260];
    hall.image_write(rt, "image write into 260 bytes: ", &mut image)?;
    println!(rt)?;
    read(rt, "image read ", &image, empty, hall)?;
    let name = "with passing times of 0: image read ";
    let plain = read(rt, name, &image, &each(0, *empty), hall)?;
    plain.pair(rt, 63)
}

// The longest line; each stop takes as long to pass as a link.
pub fn longest(rt: &impl Print) -> io::Result<()> {
    println!(rt; "a one-way line whose stops take 65535 to pass, 64 stops")?;
    let hall = each(65535, line::links()).worked(rt)?;
    hall.pair(rt, 63)?;
    line::some_scores(rt, &hall)?;
    let none = each(65535, Hall::empty(64));
    let empty = none.empty_hall(rt, "inserts: empty hall ")?;
    line::insert_links(63, Inserts::none(empty)).reached(rt, &hall)?;
    read_back(rt, &empty, &hall)
}

// Each stop between the first and the last takes as long to pass as its number is away from another one.
fn away_from(number: u64, last: u64, hall: Hall) -> Hall {
    (1..last).fold(hall, |next, m| next.with_passing(m, number.abs_diff(m)))
}

// The cost of the second link of the way by stop m: one more for each stop.
fn second(m: u64) -> u64 {
    m.wrapping_add(5)
}

// The ways by each stop between the first and the last, none as long in links as another.
fn slanted(n: u64, last: u64) -> Hall {
    (1..last).fold(Hall::empty(n), |hall, m| {
        hall.with_link(0, m, 5).with_link(m, last, second(m))
    })
}

fn insert_slanted(last: u64, before: Inserts) -> Inserts {
    (1..last).fold(before, |inserts, m| {
        inserts.with(0, m, 5).with(m, last, second(m))
    })
}

// A stop whose second link costs one more takes one less to pass.
fn levelled(last: u64, hall: Hall) -> Hall {
    away_from(last.wrapping_sub(1), last, hall)
}

// 12 ways with their passing times, and one way without.
fn twelve(rt: &impl Print) -> io::Result<()> {
    let plain = slanted(14, 13).worked(rt)?;
    plain.pair(rt, 13)?;
    plain.stop(rt, 1)?;
    let hall = levelled(13, slanted(14, 13)).worked(rt)?;
    hall.pair(rt, 13)?;
    hall.middle(rt, 13, 13)?;
    quickest::shown(rt, &hall, 0, 13, 49)?;
    let none = levelled(13, Hall::empty(14));
    let empty = none.empty_hall(rt, "inserts: empty hall ")?;
    insert_slanted(13, Inserts::none(empty)).reached(rt, &hall)
}

pub fn ways_made(rt: &impl Print) -> io::Result<()> {
    println!(rt; "12 and 13 ways by passing times, 14 and 15 stops")?;
    twelve(rt)?;
    let hall = levelled(14, slanted(15, 14)).worked(rt)?;
    hall.pair(rt, 14)?;
    hall.middle(rt, 14, 14)?;
    quickest::shown(rt, &hall, 0, 14, 53)
}

// Of 12 ways of time 10 in links, that by stop 1 is the quickest to pass; behind it that by stop 2.
fn one_left(rt: &impl Print) -> io::Result<()> {
    let hall = away_from(0, 13, fan(14, 13)).worked(rt)?;
    hall.pair(rt, 13)?;
    hall.stop(rt, 1)?;
    hall.stop(rt, 2)?;
    let left = hall.edit(rt, "delete 1 13: ", delete(1, 13))?;
    left.audit(rt)?;
    println!(rt)?;
    left.pair(rt, 13)?;
    left.stop(rt, 2)
}

// Of 13 ways of time 10 in links, that by stop 13 takes 1 more to pass.
fn twelve_left(rt: &impl Print) -> io::Result<()> {
    let hall = fan(15, 14).worked(rt)?;
    hall.pair(rt, 14)?;
    hall.middle(rt, 14, 14)?;
    let fewer = hall.with_passing(13, 1).worked(rt)?;
    fewer.pair(rt, 14)?;
    fewer.middle(rt, 13, 14)?;
    fewer.stop(rt, 13)
}

pub fn ways_unmade(rt: &impl Print) -> io::Result<()> {
    println!(rt; "12 and 13 ways unmade by passing times, 14 and 15 stops")?;
    one_left(rt)?;
    twelve_left(rt)
}

// A passing time that is too large. Every entry of the tables is 7, which is not right either.
pub fn too_large(rt: &impl Print) -> io::Result<()> {
    println!(rt; "a passing time of 65536, 4 stops")?;
    let hall = Hall {
        n: 4,
        tables: Tables::filled(7, 7),
    };
    sizes::refused(rt, &hall.with_passing(2, 65536))
}
