// Calls with what they answered written behind a name, and what the lister says of it; and lines on
// what tables hold. A call's method gives the hall that it left.
use super::change::insert;
use super::listed;
use super::stops::Hall;
use book::{Edit, Refusal};
use calls::answer::Answer;
use calls::call::{Act, Call};
use calls::entries::at;
use calls::list::List;
use make_call::{check, make};
use std::io;

// What a count of differences says.
pub fn count(rt: &impl Print, none: &str, some: &str, differ: u64) -> io::Result<()> {
    match differ {
        0 => print!(rt; "{none}"),
        _ => print!(rt; "{some}{differ}"),
    }
}

// Holds a call against the lister. An accepted one is to leave the costs `wanted` and their listed
// tables, and `unlisted` counts what else of it is not the lister's; a moving call that is refused for its
// ways met `wanted`. Of both the lister tells the most ways of a pair.
fn held(
    rt: &impl Print,
    refusal: Option<Refusal>,
    unlisted: u64,
    wanted: &Hall,
    left: &Hall,
) -> io::Result<()> {
    match refusal {
        None => {
            let differ = unlisted.wrapping_add(listed::unlisted_tables(wanted, left));
            count(
                rt,
                ", lister agrees",
                ", entries that differ from the lister's ",
                differ,
            )?;
            print!(rt; ", its most ways {}", listed::most_ways(wanted))
        }
        Some(Refusal::TooManyWays) => {
            print!(rt; ", lister's most ways {}", listed::most_ways(wanted))
        }
        Some(_) => Ok(()),
    }
}

impl Hall {
    // Makes a call with an image and a buffer.
    pub fn asked(&self, act: Act, image: &[u8], buffer: &mut [u8]) -> (Answer, Hall) {
        let mut left = *self;
        let call = Call { n: self.n, act };
        let answer = make(call, self.n, None, image, buffer, &mut left.tables);
        (answer, left)
    }

    // Makes a call that has neither.
    fn made(&self, act: Act) -> (Answer, Hall) {
        self.asked(act, &[], &mut [])
    }

    // A call that brings no link and is to leave the costs `wanted`.
    fn said(&self, rt: &impl Print, name: &str, act: Act, wanted: &Hall) -> io::Result<Hall> {
        let (answer, left) = self.made(act);
        print!(rt; "{name}{}", answer.number())?;
        held(rt, answer.refusal, 0, wanted, &left)?;
        Ok(left)
    }

    // Where it is accepted, over tables of entries 0, but for the passing times.
    pub fn empty_hall(&self, rt: &impl Print, name: &str) -> io::Result<Hall> {
        let mut wanted = Hall::empty(self.n);
        wanted.tables.passing = self.tables.passing;
        self.said(rt, name, Act::EmptyHall, &wanted)
    }

    pub fn work_out(&self, rt: &impl Print, name: &str) -> io::Result<Hall> {
        self.said(rt, name, Act::WorkOut, self)
    }

    // Where it is accepted, it leaves the lister's tables by the new scale.
    pub fn move_over(&self, rt: &impl Print, name: &str) -> io::Result<Hall> {
        self.said(rt, name, Act::MoveOver, self)
    }

    // The lister takes the costs that were read; whether they are the right ones is for `same` to say.
    pub fn image_read(&self, rt: &impl Print, name: &str, image: &[u8]) -> io::Result<Hall> {
        let (answer, left) = self.asked(Act::ImageRead, image, &mut []);
        print!(rt; "{name}{}", answer.number())?;
        held(rt, answer.refusal, 0, &left, &left)?;
        Ok(left)
    }

    pub fn edit(&self, rt: &impl Print, name: &str, edit: Edit) -> io::Result<Hall> {
        let (answer, left) = self.made(Act::Edit(edit));
        let wanted = self.with_link(edit.u, edit.v, edit.cost);
        print!(rt; "{name}{}, touched {}", answer.number(), answer.touched)?;
        print!(rt; ", rows {}, cost before {}", answer.rows, answer.before)?;
        let unlisted = listed::unlisted_answer(edit, self, &wanted, &answer);
        held(rt, answer.refusal, unlisted, &wanted, &left)?;
        Ok(left)
    }

    // A list of edits.
    pub fn list(&self, rt: &impl Print, name: &str, list: List) -> io::Result<Hall> {
        let (answer, left) = self.made(Act::EditList(list));
        print!(rt; "{name}{}, place {}", answer.number(), answer.place)?;
        print!(rt; ", touched {}, rows {}", answer.touched, answer.rows)?;
        if answer.refusal.is_none() {
            let passed = listed::after(&list, self);
            let unlisted = listed::unlisted_set(passed.touched, &answer);
            held(rt, None, unlisted, &passed.hall, &left)?;
        }
        Ok(left)
    }

    pub fn audit(&self, rt: &impl Print) -> io::Result<()> {
        let (answer, _) = self.made(Act::Audit);
        print!(rt; ", audit {}", answer.number())
    }

    pub fn image_write(&self, rt: &impl Print, name: &str, buffer: &mut [u8]) -> io::Result<()> {
        let (answer, _) = self.asked(Act::ImageWrite, &[], buffer);
        print!(rt; "{name}{}, length {}", answer.number(), answer.length)
    }

    // Whether its tables are those of another hall.
    pub fn same(&self, rt: &impl Print, other: &Hall) -> io::Result<()> {
        let differ = self.tables.unlike(&other.tables);
        count(rt, ", same tables", ", entries that differ ", differ)
    }

    // A line's end that says whether a call left these tables, and what an audit says of them.
    pub fn is_left(&self, rt: &impl Print, wanted: &Hall) -> io::Result<()> {
        self.same(rt, wanted)?;
        self.audit(rt)?;
        println!(rt)
    }

    // The same, the audit first.
    pub fn is_read(&self, rt: &impl Print, wanted: &Hall) -> io::Result<()> {
        self.audit(rt)?;
        self.same(rt, wanted)?;
        println!(rt)
    }

    // An edit; says whether it left these tables.
    pub fn edited(
        &self,
        rt: &impl Print,
        name: &str,
        edit: Edit,
        wanted: &Hall,
    ) -> io::Result<Hall> {
        let left = self.edit(rt, name, edit)?;
        left.is_left(rt, wanted)?;
        Ok(left)
    }

    // The same of a list.
    pub fn listed(
        &self,
        rt: &impl Print,
        name: &str,
        list: List,
        wanted: &Hall,
    ) -> io::Result<Hall> {
        let left = self.list(rt, name, list)?;
        left.is_left(rt, wanted)?;
        Ok(left)
    }

    // The same of a moving call.
    pub fn moved(&self, rt: &impl Print, name: &str, wanted: &Hall) -> io::Result<Hall> {
        let left = self.move_over(rt, name)?;
        left.is_left(rt, wanted)?;
        Ok(left)
    }

    // Works its cost table out and audits what that left.
    pub fn worked(&self, rt: &impl Print) -> io::Result<Hall> {
        let left = self.work_out(rt, "work out ")?;
        left.audit(rt)?;
        println!(rt)?;
        Ok(left)
    }

    // The time and the ways from stop 0 to the last stop.
    pub fn pair(&self, rt: &impl Print, last: usize) -> io::Result<()> {
        let time = at(&self.tables.time, last);
        let ways = at(&self.tables.ways, last);
        println!(rt; "pair 0 {last}: time {time}, ways {ways}")
    }

    // The least and the greatest score of the stops from 1 up to `past`, and those of the two ends.
    pub fn middle(&self, rt: &impl Print, past: usize, last: usize) -> io::Result<()> {
        let scores = self.middle_scores(past);
        let least = scores.iter().copied().min().unwrap_or(0);
        let greatest = scores.iter().copied().max().unwrap_or(0);
        let first = at(&self.tables.score, 0);
        let end = at(&self.tables.score, last);
        println!(rt; "middle stops {least} to {greatest}, ends {first} {end}")
    }

    pub fn stop(&self, rt: &impl Print, v: usize) -> io::Result<()> {
        let score = at(&self.tables.score, v);
        println!(rt; "stop {v} scores {score}")
    }
}

pub fn image_check(rt: &impl Print, name: &str, image: &[u8], n: u64) -> io::Result<()> {
    print!(rt; "{name}{}", check(image, n).number())
}

// Inserts: how many were accepted, how much of what each answered and left is not the lister's, and
// the hall that the last one left.
#[derive(Clone, Copy)]
pub struct Inserts {
    accepted: u64,
    unlisted: u64,
    pub hall: Hall,
}

impl Inserts {
    pub fn none(hall: Hall) -> Inserts {
        Inserts {
            accepted: 0,
            unlisted: 0,
            hall,
        }
    }

    // One insert more.
    pub fn with(self, u: u64, v: u64, cost: u64) -> Inserts {
        let edit = insert(u, v, cost);
        let (answer, left) = self.hall.made(Act::Edit(edit));
        let wanted = self.hall.with_link(u, v, cost);
        let more = listed::unlisted(edit, &self.hall, &wanted, &answer, &left);
        let accepted = u64::from(answer.refusal.is_none());
        Inserts {
            accepted: self.accepted.wrapping_add(accepted),
            unlisted: self.unlisted.wrapping_add(more),
            hall: left,
        }
    }

    // A line on inserts that were to lead to these tables.
    pub fn reached(&self, rt: &impl Print, wanted: &Hall) -> io::Result<()> {
        let left = &self.hall;
        print!(rt; ", accepted {}", self.accepted)?;
        held(rt, None, self.unlisted, left, left)?;
        left.is_read(rt, wanted)
    }
}
