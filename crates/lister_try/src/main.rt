// Writes the lister's tables of four halls, their quickest routes between some stops, and what the edits
// that make and change the first of them touch; the second hall's tables also by the old numbers; and the same
// of halls whose stops take time to pass, and of halls with crowded pairs. The stored output was worked out apart
// from the lister: the first two halls, those with passing times and those with crowded pairs by hand, the line by
// formulas, the last of the four and the routes of all four by listing them in another program.
#![tactic(auto)]

mod crowded;
mod hall;
mod passing;

use hall::{BEFORE, Edited, Hall, TODAY, of_links};
use std::io;

// No stop takes time to pass.
const NONE: [u32; 10] = [0; 10];

// A hall of five stops with pairs of several ways and unreachable ones.
const TIES: [u32; 25] = [
    0, 2, 1, 0, 0, 0, 0, 0, 3, 0, 0, 1, 0, 4, 0, 0, 0, 0, 0, 1, 0, 0, 0, 0, 0,
];

// Two ways from 0 to 3. Stop 4 is none of the hall's stops.
fn diamond(rt: &impl Print) -> io::Result<()> {
    let mut edited = Edited::new(&NONE);
    for (u, v) in [(0, 1), (0, 2), (1, 3), (2, 3)] {
        edited.edit(rt, u, v, 5)?;
    }
    edited.hall().tables(rt, TODAY, 16)?;
    for (s, t) in [(0, 3), (1, 3), (2, 2), (3, 0), (0, 4), (4, 4)] {
        edited.hall().routes(rt, s, t)?;
    }
    cut_off(rt, edited.hall())?;
    edited.edit(rt, 2, 3, 4)?;
    edited.hall().tables(rt, TODAY, 16)?;
    edited.hall().routes(rt, 0, 3)?;
    edited.edit(rt, 2, 3, 0)?;
    edited.hall().tables(rt, TODAY, 16)
}

// The list from 0 to 3 in buffers of eight bytes and of none: it is cut off.
fn cut_off(rt: &impl Print, hall: Hall<'_>) -> io::Result<()> {
    hall.routes_in(rt, 0, 3, &mut [0; 8])?;
    hall.routes_in(rt, 0, 3, &mut [])
}

// A line of ten stops, each with a link of cost 1 to the next, and a link of cost 9 from the first to
// the last, which takes as long as the line. The loop goes over stops.
fn line_of_ten() -> [u32; 100] {
    let mut cost = [0; 100];
    for u in 0..9usize {
        cost[u * 10 + u + 1] = 1;
    }
    cost[9] = 9;
    cost
}

// A hall of six stops: from each a link to every later one, as long as the links over the stops between,
// but to the last only from 3 and 4. From 0 to 5 there are 12 ways, the most of a pair that is not crowded.
fn most_ways() -> [u32; 36] {
    of_links(
        6,
        &[
            (0, 1, 1),
            (0, 2, 2),
            (0, 3, 3),
            (0, 4, 4),
            (1, 2, 1),
            (1, 3, 2),
            (1, 4, 3),
            (2, 3, 1),
            (2, 4, 2),
            (3, 4, 1),
            (3, 5, 2),
            (4, 5, 1),
        ],
    )
}

// The other three halls. In that of ties routes of different lengths take the same time.
fn others(rt: &impl Print) -> io::Result<()> {
    let ties = Hall::new(&TIES, &NONE, 5);
    let costs = line_of_ten();
    let line = Hall::new(&costs, &NONE, 10);
    let costs = most_ways();
    let most = Hall::new(&costs, &NONE, 6);
    ties.tables(rt, TODAY, 25)?;
    line.tables(rt, TODAY, 100)?;
    most.tables(rt, TODAY, 36)?;
    ties.tables(rt, BEFORE, 25)?;
    for (s, t) in [(0, 1), (0, 3), (0, 4), (4, 0)] {
        ties.routes(rt, s, t)?;
    }
    line.routes(rt, 0, 9)?;
    line.routes(rt, 1, 9)?;
    most.routes(rt, 0, 5)?;
    most.routes(rt, 1, 4)
}

fn main(rt: HostRuntime) -> io::Result<()> {
    diamond(&rt)?;
    others(&rt)?;
    passing::tries(&rt)?;
    crowded::tries(&rt)
}
