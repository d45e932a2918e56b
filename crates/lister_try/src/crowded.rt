// Halls with crowded pairs: more ways than the limit.
use crate::TIES;
use crate::hall::{BEFORE, Counting, Hall, TODAY, of_links};
use std::io;

// No pair is crowded.
const NO_LIMIT: Counting = Counting {
    limit: 4294967295,
    scale: 27720,
};

// A pair of two ways is crowded.
const LIMIT_OF_ONE: Counting = Counting {
    limit: 1,
    scale: 27720,
};

// No stop takes time to pass.
const NONE: [u32; 15] = [0; 15];

// Fifteen stops: from 0 to 14 by each of the 13 stops between, in two links of cost 5. The loop goes over stops.
fn fan() -> [u32; 225] {
    let mut cost = [0; 225];
    for m in 1..14usize {
        cost[m] = 5;
        cost[m * 15 + 14] = 5;
    }
    cost
}

// Six stops: from each a link to every later one, as long as the links over the stops between, so that the ways double from stop
// to stop: 16 from 0 to 5, and 8 from 0 to 4 and from 1 to 5.
fn forward() -> [u32; 36] {
    of_links(
        6,
        &[
            (0, 1, 1),
            (0, 2, 2),
            (0, 3, 3),
            (0, 4, 4),
            (0, 5, 5),
            (1, 2, 1),
            (1, 3, 2),
            (1, 4, 3),
            (1, 5, 4),
            (2, 3, 1),
            (2, 4, 2),
            (2, 5, 3),
            (3, 4, 1),
            (3, 5, 2),
            (4, 5, 1),
        ],
    )
}

// The first rows of the tables of 13 ways, by the limit of today and by the old one, which they do not pass.
fn thirteen(rt: &impl Print) -> io::Result<()> {
    let cost = fan();
    let hall = Hall::new(&cost, &NONE, 15);
    hall.tables(rt, TODAY, 15)?;
    hall.tables(rt, BEFORE, 15)
}

// The link from 0 to 5 closes. From 0 this takes one of 16 ways: the pair stays crowded, and the tables stay.
fn closed(rt: &impl Print) -> io::Result<()> {
    let before = forward();
    let mut after = before;
    after[5] = 0;
    let hall = Hall::new(&after, &NONE, 6);
    hall.touched(rt, &before, 0, 5)?;
    hall.tables(rt, TODAY, 36)
}

// By a limit of 1 the hall of ties has crowded pairs from 0 and from 2; with no limit none is crowded.
pub fn tries(rt: &impl Print) -> io::Result<()> {
    let cost = forward();
    let hall = Hall::new(&cost, &NONE, 6);
    thirteen(rt)?;
    hall.tables(rt, TODAY, 36)?;
    closed(rt)?;
    hall.tables(rt, NO_LIMIT, 36)?;
    Hall::new(&TIES, &NONE, 5).tables(rt, LIMIT_OF_ONE, 25)
}
