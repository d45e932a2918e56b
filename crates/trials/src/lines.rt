// How a tally is written: a line for each count, its words in front of it.
use super::count::Count;
use super::tally::{REFUSALS, Tally};
use book::Kind;
use calls::call::Name;
use calls::compare::sum;
use calls::entries::at;
use std::fmt;

// Counts with the words of their lines.
type Lines<'a> = &'a [(Count, &'static str)];

const HEAD: [(Count, &str); 8] = [
    (Count::Sequences, "sequences"),
    (Count::Moved, "sequences from moved halls"),
    (Count::MovedTies, "moved halls with ties"),
    (Count::Answers, "answers"),
    (Count::Tables, "tables"),
    (Count::Touched, "touched sources"),
    (Count::Ties, "accepted with ties"),
    (Count::Spoiled, "entries drawn anew"),
];

const REVERSED: [(Kind, &str); 4] = [
    (Kind::Insert, "inserts reversed"),
    (Kind::Cheapen, "cheapens reversed"),
    (Kind::Raise, "raises reversed"),
    (Kind::Delete, "deletes reversed"),
];

const CALLS: [(Name, &str); 13] = [
    (Name::EmptyHall, "empty hall"),
    (Name::WorkOut, "work out"),
    (Name::Audit, "audit"),
    (Name::Edit(Kind::Insert), "insert"),
    (Name::Edit(Kind::Cheapen), "cheapen"),
    (Name::Edit(Kind::Raise), "raise"),
    (Name::Edit(Kind::Delete), "delete"),
    (Name::EditList, "edit list"),
    (Name::ImageWrite, "image write"),
    (Name::ImageRead, "image read"),
    (Name::MoveOver, "move over"),
    (Name::ListRoutes, "route list"),
    (Name::ImageCheck, "image check"),
];

const LISTS: [(Count, &str); 2] = [
    (Count::Undone, "accepted lists that undo all they did"),
    (
        Count::CrowdedInPassing,
        "accepted lists with crowded pairs in passing alone",
    ),
];

const ROUTES: [(Count, &str); 4] = [
    (
        Count::Uneven,
        "accepted route lists with routes of different lengths",
    ),
    (Count::Staying, "accepted route lists from a stop to itself"),
    (Count::Longer, "accepted route lists in a longer buffer"),
    (Count::OneShort, "route lists refused for a single byte"),
];

const PASSING: [(Count, &str); 8] = [
    (Count::PassedHalls, "halls with passing times above 0"),
    (
        Count::PassedTimes,
        "times that passing times changed in them",
    ),
    (
        Count::PassedTies,
        "accepted with ties and passing times above 0",
    ),
    (
        Count::PassedMoves,
        "moving calls accepted with passing times above 0",
    ),
    (
        Count::PassedKept,
        "moving calls refused with 3 by passing times alone",
    ),
    (
        Count::PassedCrowded,
        "accepted with crowded pairs and passing times above 0",
    ),
    (Count::OddAndBad, "refused with 2 where 13 would follow"),
    (Count::BadAndWrong, "refused with 13 where 3 would follow"),
];

const CROWDED: [(Count, &str); 10] = [
    (Count::Crowded, "accepted with crowded pairs"),
    (
        Count::CrowdedEdits,
        "edits with a crowded pair before or after",
    ),
    (Count::UncrowdedEdits, "edits without"),
    (Count::Made, "edits that made a pair crowded"),
    (Count::Unmade, "edits that made a pair uncrowded"),
    (Count::Alike, "touched rows that look the same"),
    (
        Count::ReversedCrowded,
        "edits reversed with a crowded pair before or after",
    ),
    (
        Count::CrowdedMoves,
        "moving calls refused with 3 over a crowded pair",
    ),
    (
        Count::CrowdedAndShort,
        "refused with 14 where 10 would follow",
    ),
    (Count::PastCrowded, "refused with 4 where 14 would follow"),
];

const TAIL: [(Count, &str); 2] = [
    (Count::Differences, "differences"),
    (Count::First, "first in answer"),
];

// Some counts behind the words of their line.
#[derive(Clone, Copy)]
struct Row<'a>(&'a [u64]);

impl<'a> fmt::Display for Row<'a> {
    fn fmt<W: fmt::Write>(&self, f: &mut fmt::Formatter<W>) -> fmt::Result {
        for x in self.0 {
            write!(f, " {x}")?;
        }
        Ok(())
    }
}

impl Tally {
    fn write_counts<W: fmt::Write>(&self, f: &mut fmt::Formatter<W>, lines: Lines) -> fmt::Result {
        for (count, words) in lines {
            let x = self.of(*count);
            writeln!(f, "{words} {x}")?;
        }
        Ok(())
    }

    fn write_reversed<W: fmt::Write>(&self, f: &mut fmt::Formatter<W>) -> fmt::Result {
        for (kind, words) in REVERSED {
            let x = self.reversed[kind as usize];
            writeln!(f, "{words} {x}")?;
        }
        Ok(())
    }

    // How often a refusal was answered, over all calls.
    fn total(&self, refusal: usize) -> u64 {
        let mut total = 0u64;
        for answers in &self.answers {
            total = total.wrapping_add(at(answers, refusal));
        }
        total
    }

    fn write_refusals<W: fmt::Write>(&self, f: &mut fmt::Formatter<W>) -> fmt::Result {
        for refusal in 0..REFUSALS {
            let x = self.total(refusal);
            writeln!(f, "refusal {refusal} {x}")?;
        }
        Ok(())
    }

    fn write_answers<W: fmt::Write>(&self, f: &mut fmt::Formatter<W>) -> fmt::Result {
        for (name, words) in CALLS {
            let row = Row(&self.answers[name.number()]);
            writeln!(f, "{words}{row}")?;
        }
        Ok(())
    }

    fn write_lists<W: fmt::Write>(&self, f: &mut fmt::Formatter<W>) -> fmt::Result {
        let accepted = &self.accepted;
        writeln!(f, "accepted lists of 0 edits {}", accepted[0])?;
        writeln!(f, "accepted lists of 1 edit {}", accepted[1])?;
        writeln!(f, "accepted lists of 2 to 8 edits {}", sum(&accepted[2..9]))?;
        writeln!(
            f,
            "accepted lists of 9 to 31 edits {}",
            sum(&accepted[9..32])
        )?;
        writeln!(f, "accepted lists of 32 edits {}", accepted[32])?;
        self.write_counts(f, &LISTS)
    }

    fn write_refused_lists<W: fmt::Write>(&self, f: &mut fmt::Formatter<W>) -> fmt::Result {
        let too_long = &self.too_long;
        writeln!(f, "lists too long, of 33 edits {}", too_long[33])?;
        writeln!(f, "lists too long, of 34 edits {}", too_long[34])?;
        let places = &self.refused[1..];
        let met = places.iter().filter(|lists| 0 < **lists).count();
        writeln!(f, "lists refused at edits 1 to 32{}", Row(places))?;
        writeln!(f, "places of refused edits {met}")
    }

    fn write_moves<W: fmt::Write>(&self, f: &mut fmt::Formatter<W>) -> fmt::Result {
        let moves = &self.moves;
        let accepted = Row(&moves[1..13]);
        let crowded = Row(&moves[13..23]);
        let past = Row(&moves[23..33]);
        writeln!(f, "moving calls accepted, 1 to 12 ways at most{accepted}")?;
        writeln!(f, "refused with 11, 13 to 22 ways{crowded}")?;
        writeln!(f, "refused with 3, 23 to 32 ways{past}")
    }

    fn write_routes<W: fmt::Write>(&self, f: &mut fmt::Formatter<W>) -> fmt::Result {
        let lists = &self.routes;
        let several = sum(&lists[2..]);
        let row = Row(lists);
        writeln!(f, "accepted route lists of 0 to 12 routes{row}")?;
        writeln!(f, "accepted route lists without a route {}", lists[0])?;
        writeln!(f, "accepted route lists of two routes or more {several}")?;
        self.write_counts(f, &ROUTES)
    }
}

impl fmt::Display for Tally {
    fn fmt<W: fmt::Write>(&self, f: &mut fmt::Formatter<W>) -> fmt::Result {
        self.write_counts(f, &HEAD)?;
        self.write_reversed(f)?;
        self.write_refusals(f)?;
        self.write_answers(f)?;
        self.write_lists(f)?;
        self.write_refused_lists(f)?;
        self.write_moves(f)?;
        self.write_routes(f)?;
        self.write_counts(f, &PASSING)?;
        self.write_counts(f, &CROWDED)?;
        self.write_counts(f, &TAIL)
    }
}
