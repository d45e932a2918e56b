// Halls whose stops take time to pass.
use crate::hall::{Edited, Hall, TODAY, of_links};
use std::io;

// Four stops: from 0 to 3 over 1 and 2 in three links of cost 2, or in one of cost 8.
fn line_and_link() -> [u32; 16] {
    of_links(4, &[(0, 1, 2), (1, 2, 2), (2, 3, 2), (0, 3, 8)])
}

// Without passing times the three links are quicker, with 1 at stops 1 and 2 they tie with the one, and with 1 more that is
// quicker. The passing times of 0 and of 3, which no route goes through, count for nothing.
fn direct_or_not(rt: &impl Print) -> io::Result<()> {
    for passing in [[0, 0, 0, 0], [65535, 1, 1, 65535], [9, 1, 2, 9]] {
        let cost = line_and_link();
        let hall = Hall::new(&cost, &passing, 4);
        hall.tables(rt, TODAY, 16)?;
        hall.routes(rt, 0, 3)?;
    }
    Ok(())
}

// Five stops: from 0 to 4 over 1, or over 2 and 3, all links of cost 1.
fn short_and_long() -> [u32; 25] {
    of_links(5, &[(0, 1, 1), (1, 4, 1), (0, 2, 1), (2, 3, 1), (3, 4, 1)])
}

// Stop 1 takes long to pass, so that the way of more links is quicker, or as quick.
fn longer_way(rt: &impl Print) -> io::Result<()> {
    for passing in [[0, 3, 0, 1, 0], [0, 3, 1, 1, 0]] {
        let cost = short_and_long();
        let hall = Hall::new(&cost, &passing, 5);
        hall.tables(rt, TODAY, 25)?;
        hall.routes(rt, 0, 4)?;
    }
    Ok(())
}

// Three stops in a circle: each is the end of some routes, and between the ends of one.
fn circle(rt: &impl Print) -> io::Result<()> {
    let hall = Hall::new(&[0, 1, 0, 0, 0, 1, 1, 0, 0], &[65535, 1, 0], 3);
    hall.tables(rt, TODAY, 9)?;
    hall.routes(rt, 2, 1)
}

// Two ways of time 10 in links from 0 to 3, but stop 1 takes 1 to pass: a delete of 1 to 3 touches 1 alone. Behind the raise of
// 2 to 3 by 1 the ways tie, and it touches 0 too.
fn edits(rt: &impl Print) -> io::Result<()> {
    let mut edited = Edited::new(&[0, 1, 0, 0]);
    for (u, v, c) in [
        (0, 1, 5),
        (0, 2, 5),
        (1, 3, 5),
        (2, 3, 5),
        (1, 3, 0),
        (1, 3, 5),
        (2, 3, 6),
        (1, 3, 0),
    ] {
        edited.edit(rt, u, v, c)?;
    }
    Ok(())
}

pub fn tries(rt: &impl Print) -> io::Result<()> {
    direct_or_not(rt)?;
    longer_way(rt)?;
    circle(rt)?;
    edits(rt)
}
