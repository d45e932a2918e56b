// Lists of the quickest routes, in buffers of bytes 7, held against the lister's.
use super::lists::diamond;
use super::report::count;
use super::stops::Hall;
use super::text;
use calls::call::Act;
use calls::compare::unlike;
use std::io;

// The room of a buffer.
const ROOM: usize = 768;

// How many bytes of a buffer are not as the lister leaves one, and whether the length is another.
fn unlisted(hall: &Hall, s: u64, t: u64, length: u64, buffer: &[u8]) -> u64 {
    let mut bytes = [7u8; ROOM];
    let given = &hall.tables;
    let listed = lister::routes(&given.cost, &given.passing, hall.n, s, t, &mut bytes);
    let other_length = u64::from(length != listed as u64);
    other_length.wrapping_add(unlike(&bytes, buffer, ROOM))
}

// A list from s to t in the first bytes of a buffer; gives its length.
pub fn listed(
    rt: &impl Print,
    hall: &Hall,
    s: u64,
    t: u64,
    room: usize,
    buffer: &mut [u8],
) -> io::Result<u64> {
    let k = room.min(buffer.len());
    let (answer, _) = hall.asked(Act::ListRoutes { s, t }, &[], &mut buffer[..k]);
    let length = answer.length;
    print!(rt; "routes {s} {t} into {room} bytes: {}", answer.number())?;
    print!(rt; ", length {length}")?;
    if answer.refusal.is_none() {
        count(
            rt,
            ", lister agrees",
            ", bytes that differ from the lister's ",
            unlisted(hall, s, t, length, buffer),
        )?;
    } else {
        print!(rt; ", bytes changed {}", text::changed(buffer))?;
    }
    println!(rt)?;
    Ok(length)
}

// The same, with the bytes that an accepted list leaves.
pub fn shown(rt: &impl Print, hall: &Hall, s: u64, t: u64, room: usize) -> io::Result<()> {
    let mut buffer = [7u8; ROOM];
    if 0 < listed(rt, hall, s, t, room, &mut buffer)? {
        let k = room.min(ROOM);
        text::bytes(rt, "bytes", &buffer[..k])?;
    }
    Ok(())
}

// Stops that the hall has not are refused before the buffer is looked at.
fn not_stops(rt: &impl Print, hall: &Hall) -> io::Result<()> {
    shown(rt, hall, 4, 0, 9)?;
    shown(rt, hall, 0, 4, 0)?;
    shown(rt, hall, 4, 4, 9)
}

// Two ways from stop 0 to stop 3, one from a stop to itself, and none from stop 3 to stop 0.
pub fn two_ways(rt: &impl Print) -> io::Result<()> {
    println!(rt; "the quickest routes of two ways, 4 stops")?;
    let hall = diamond(rt)?;
    shown(rt, &hall, 0, 3, 12)?;
    shown(rt, &hall, 0, 3, 9)?;
    shown(rt, &hall, 0, 3, 8)?;
    shown(rt, &hall, 2, 2, 3)?;
    shown(rt, &hall, 2, 2, 2)?;
    shown(rt, &hall, 3, 0, 1)?;
    shown(rt, &hall, 3, 0, 0)?;
    not_stops(rt, &hall)
}

// A line of 64 stops. Links past one stop take as long as the line: there are two ways from 10 to 12 and from 30 to 32, and three
// from 50 to 53. No hall has a longer list.
fn skips() -> Hall {
    let line = (0u64..63).fold(Hall::empty(64), |hall, u| {
        hall.with_link(u, u.wrapping_add(1), 20000)
    });
    let two = line.with_link(30, 32, 40000).with_link(10, 12, 40000);
    two.with_link(51, 53, 40000).with_link(50, 52, 40000)
}

// Twelve routes of up to 64 stops: how many each has, and a number that tells their bytes.
fn twelve(rt: &impl Print, hall: &Hall) -> io::Result<()> {
    let mut buffer = [7u8; ROOM];
    listed(rt, hall, 0, 63, 761, &mut buffer)?;
    text::lengths(rt, "stops", &buffer)?;
    println!(rt; "sum of sums {}", text::sum_of_sums(&buffer, 761))
}

pub fn longest(rt: &impl Print) -> io::Result<()> {
    let mut untouched = [7u8; ROOM];
    println!(rt; "the quickest routes of 12 ways, 64 stops")?;
    let hall = skips().worked(rt)?;
    hall.pair(rt, 63)?;
    twelve(rt, &hall)?;
    listed(rt, &hall, 0, 63, 760, &mut untouched)?;
    shown(rt, &hall, 63, 63, 4)?;
    shown(rt, &hall, 63, 0, 2)
}
