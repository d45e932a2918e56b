// What is counted: the refusals of each call, and what was met and compared.
use super::buffer::Buffer;
use super::count::{COUNTS, Count};
use super::hall_book::is_crowded_before;
use super::output;
use super::pair::Pair;
use book::{Kind, Refusal};
use calls::answer::Answer;
use calls::call::Name;

// The refusals 0 to 14, 0 for an acceptance.
pub const REFUSALS: usize = 15;

// The kinds of edits.
const KINDS: usize = 4;

// The numbers of edits of a list, 0 to 34, and the places of a refused edit, 0 to 32.
const LENGTHS: usize = 35;

const PLACES: usize = 33;

// The most ways of a pair, 0 to 32, and the numbers of routes of a list, 0 to 12.
const WAYS: usize = 33;

const ROUTES: usize = 13;

#[derive(Drop)]
pub struct Tally {
    counts: [u64; COUNTS],

    // The answers of each call, by their refusal.
    pub answers: [[u64; REFUSALS]; Name::COUNT],

    // Accepted edits that the next call reversed, by kind.
    pub reversed: [u64; KINDS],

    // Accepted lists, and lists that were too long, by the number of their edits; and lists by the place of their refused edit.
    pub accepted: [u64; LENGTHS],
    pub too_long: [u64; LENGTHS],
    pub refused: [u64; PLACES],

    // Moving calls, by the most ways of a pair.
    pub moves: [u64; WAYS],

    // Accepted route lists, by the number of their routes.
    pub routes: [u64; ROUTES],
}

// Counts one more at a place, where there is one.
fn count_at(counts: &mut [u64], place: u64) {
    let place = place as usize;
    if place < counts.len() {
        counts[place] = counts[place].wrapping_add(1);
    }
}

impl Tally {
    pub fn new() -> Self {
        Tally {
            counts: [0; COUNTS],
            answers: [[0; REFUSALS]; Name::COUNT],
            reversed: [0; KINDS],
            accepted: [0; LENGTHS],
            too_long: [0; LENGTHS],
            refused: [0; PLACES],
            moves: [0; WAYS],
            routes: [0; ROUTES],
        }
    }

    pub fn of(&self, count: Count) -> u64 {
        self.counts[count as usize]
    }

    pub fn add(&mut self, count: Count, x: u64) {
        let i = count as usize;
        self.counts[i] = self.counts[i].wrapping_add(x);
    }

    // Counts one more where something is so.
    pub fn add_if(&mut self, count: Count, so: bool) {
        if so {
            self.add(count, 1);
        }
    }

    // Counts the differences of the last answer.
    pub fn add_differences(&mut self, differ: u64) {
        if differ == 0 {
            return;
        }
        if self.of(Count::Differences) == 0 {
            self.add(Count::First, self.of(Count::Answers));
        }
        self.add(Count::Differences, differ);
    }

    // Counts an answer of a call.
    pub fn add_answer(&mut self, name: Name, answer: &Answer) {
        self.add(Count::Answers, 1);
        count_at(&mut self.answers[name.number()], answer.number());
    }

    // Counts an accepted edit that the next call reverses.
    pub fn add_reversed(&mut self, kind: Kind) {
        count_at(&mut self.reversed, kind as u64);
    }

    // Counts a list of so many edits.
    pub fn add_list(&mut self, length: usize, answer: &Answer) {
        count_at(&mut self.refused, answer.place);
        match answer.refusal {
            None => count_at(&mut self.accepted, length as u64),
            Some(Refusal::ListTooLong) => count_at(&mut self.too_long, length as u64),
            _ => {}
        }
    }

    // Counts a moving call that its ways decide: one that is accepted or refused with 11, or with 3 where they pass the old limit.
    pub fn add_move(&mut self, most: u64, answer: &Answer) {
        let decided = match answer.refusal {
            None | Some(Refusal::TooManyWays) => true,
            Some(Refusal::BadTables) => is_crowded_before(most),
            _ => false,
        };
        if decided {
            count_at(&mut self.moves, most);
        }
    }

    // Counts an accepted list of the routes between two stops, for which the buffer had so much room.
    pub fn add_routes(&mut self, list: &Buffer, ends: Pair, room: usize) {
        count_at(&mut self.routes, u64::from(output::number(list)));
        self.add_if(Count::Uneven, output::is_uneven(list));
        self.add_if(Count::Staying, ends.is_same_stop());
        self.add_if(Count::Longer, list.length < room);
    }
}
