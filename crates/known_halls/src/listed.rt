// What the lister lists for the halls of the calls, and how much of what a call answered and left is
// otherwise.
use super::stops::Hall;
use book::{Edit, Kind};
use calls::answer::Answer;
use calls::compare::sum;
use calls::entries::{between, narrow};
use calls::list::List;
use calls::tables::{CELLS, Tables, cells};

// The most ways of a pair that is not crowded, and what a whole share counts.
#[derive(Clone, Copy)]
struct Numbers {
    limit: u32,
    scale: u32,
}

const TODAY: Numbers = Numbers {
    limit: 12,
    scale: 27720,
};

const BEFORE: Numbers = Numbers {
    limit: 22,
    scale: 232792560,
};

impl Numbers {
    // No pair has more ways.
    fn unlimited(self) -> Numbers {
        Numbers {
            limit: u32::MAX,
            scale: self.scale,
        }
    }

    // The hall's tables, but for the lister's times, ways, shares and scores of its costs and passing times.
    fn tables(self, hall: &Hall) -> Tables {
        let given = &hall.tables;
        let mut listed = hall.tables;
        let mut times = [0u64; CELLS];
        let mut counts = [0u64; CELLS];
        lister::tables(
            &given.cost,
            &given.passing,
            hall.n,
            self.limit,
            self.scale,
            &mut times,
            &mut counts,
            &mut listed.share,
            &mut listed.score,
        );
        narrowed(&times, cells(hall.n), &mut listed.time);
        narrowed(&counts, cells(hall.n), &mut listed.ways);
        listed
    }
}

// Takes the first entries over from a table of 64 bits.
fn narrowed(from: &[u64], count: usize, table: &mut [u32]) {
    for (entry, x) in table.iter_mut().zip(from).take(count) {
        *entry = narrow(*x);
    }
}

fn with_tables(hall: &Hall, tables: Tables) -> Hall {
    Hall { n: hall.n, tables }
}

// As if no pair were crowded.
pub fn unlimited(hall: &Hall) -> Hall {
    with_tables(hall, TODAY.unlimited().tables(hall))
}

// By the old numbers.
pub fn old(hall: &Hall) -> Hall {
    with_tables(hall, BEFORE.tables(hall))
}

// By the old scale, as if no pair were crowded.
pub fn old_unlimited(hall: &Hall) -> Hall {
    with_tables(hall, BEFORE.unlimited().tables(hall))
}

// The entries of the tables left that are not those of the costs `wanted`.
pub fn unlisted_tables(wanted: &Hall, left: &Hall) -> u64 {
    TODAY.tables(wanted).unlike(&left.tables)
}

// The most ways of a pair, by the lister, which counts them all.
pub fn most_ways(hall: &Hall) -> u32 {
    unlimited(hall).most_ways()
}

// The sources from which a quickest route, before or after, uses the link of an edit.
fn touched(edit: Edit, before: &Hall, after: &Hall) -> u64 {
    let given = &before.tables;
    lister::touched(
        &given.cost,
        &after.tables.cost,
        &given.passing,
        before.n,
        edit.u,
        edit.v,
    )
}

// How many of an edit's set, number and cost before are not the lister's and that of the hall before; of a refused edit they are 0.
pub fn unlisted_answer(edit: Edit, before: &Hall, after: &Hall, answer: &Answer) -> u64 {
    let mut set = 0;
    let mut cost = 0;
    if answer.refusal.is_none() {
        set = touched(edit, before, after);
        cost = between(&before.tables.cost, before.n, edit.u, edit.v);
    }
    sum(&[
        u64::from(answer.touched != set),
        u64::from(answer.rows != lister::number(set)),
        u64::from(answer.before != cost),
    ])
}

// How much of what an edit answered and, where it was accepted, left is not the lister's; `after` is
// the hall before it with the cost that it brings.
pub fn unlisted(edit: Edit, before: &Hall, after: &Hall, answer: &Answer, left: &Hall) -> u64 {
    let answers = unlisted_answer(edit, before, after, answer);
    match answer.refusal {
        None => answers.wrapping_add(unlisted_tables(after, left)),
        Some(_) => answers,
    }
}

// The hall before a list with the costs that its edits leave, and the sources that these touch.
#[derive(Clone, Copy)]
pub struct Passed {
    pub hall: Hall,
    pub touched: u64,
}

// One edit more.
fn step(edit: Edit, before: Passed) -> Passed {
    let cost = match edit.kind {
        Kind::Delete => 0,
        _ => edit.cost,
    };
    let hall = before.hall.with_link(edit.u, edit.v, cost);
    Passed {
        hall,
        touched: before.touched | touched(edit, &before.hall, &hall),
    }
}

pub fn after(list: &List, hall: &Hall) -> Passed {
    let mut passed = Passed {
        hall: *hall,
        touched: 0,
    };
    for edit in list.edits() {
        passed = step(*edit, passed);
    }
    passed
}

// How many of an answer's set and number are not those of a union.
pub fn unlisted_set(set: u64, answer: &Answer) -> u64 {
    sum(&[
        u64::from(answer.touched != set),
        u64::from(answer.rows != lister::number(set)),
    ])
}
