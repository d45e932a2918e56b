// Halls of many ways at each stop: every stop has links to all later ones, of the cost of their distance, so that all routes
// forward tie, and the ways double from stop to stop.
use super::change::delete;
use super::stops::Hall;
use super::{lists, quickest};
use calls::entries::put;
use calls::tables::place;
use std::io;

// The links of all stops to later ones, in tables of entries 0. The loops go over pairs of stops.
pub fn forward(n: u64) -> Hall {
    let mut hall = Hall::empty(n);
    for u in 0..n {
        for v in u + 1..n {
            hall = hall.with_link(u, v, v - u);
        }
    }
    hall
}

// From stop 0 to stop 17 there are 65,536 ways, which are 0 in 16 bits. Pairs five stops apart or more are crowded.
pub fn none_in_16_bits(rt: &impl Print) -> io::Result<()> {
    println!(rt; "65536 ways, 18 stops")?;
    let hall = forward(18).worked(rt)?;
    hall.pair(rt, 17)?;
    hall.pair(rt, 5)?;
    hall.pair(rt, 4)?;
    hall.stop(rt, 1)?;
    hall.stop(rt, 9)
}

// The tables with other ways from stop 0 to the last stop.
pub fn with_ways(last: u64, ways: u32, hall: &Hall) -> Hall {
    let mut next = *hall;
    if let Some(at) = place(hall.n, 0, last) {
        put(&mut next.tables.ways, at, ways);
    }
    next
}

// Ways from stop 0 to stop 4 that are the right ones in 16 bits.
pub fn right_in_16_bits(rt: &impl Print) -> io::Result<()> {
    println!(rt; "8 ways, 5 stops")?;
    let hall = forward(5).worked(rt)?;
    hall.pair(rt, 4)?;
    quickest::shown(rt, &hall, 0, 4, 40)?;
    let wrong = with_ways(4, 65544, &hall);
    print!(rt; "with 65544 ways in their place")?;
    wrong.audit(rt)?;
    println!(rt)?;
    let left = wrong.edit(rt, "delete 0 4: ", delete(0, 4))?;
    left.same(rt, &wrong)?;
    println!(rt)?;
    let last = left.list(rt, "33 inserts: ", lists::inserts(33))?;
    last.same(rt, &wrong)?;
    println!(rt)?;
    quickest::shown(rt, &last, 0, 4, 40)
}
