// Comparisons: each counts the entries that differ.
use super::costs::Costs;
use super::hall_book::Book;
use super::trial::Trial;
use calls::answer::Answer;
use calls::compare::{sum, unlike};
use calls::tables::{self, Tables, cells};

// The first entries of a table of 32 bits against those of one of 64, which the generic comparison of one type does not take.
fn widened(a: &[u32], b: &[u64], count: usize) -> u64 {
    let pairs = a.iter().zip(b).take(count);
    pairs.filter(|(x, y)| u64::from(**x) != **y).count() as u64
}

// The tables of a hall against those of a book.
pub fn with_book(tables: &Tables, book: &Book) -> u64 {
    let stops = book.stops();
    let count = cells(stops);
    sum(&[
        unlike(&tables.cost, &book.hall.costs.table, count),
        widened(&tables.time, &book.time, count),
        widened(&tables.ways, &book.ways, count),
        unlike(&tables.share, &book.share, count),
        unlike(&tables.score, &book.score, tables::stops(stops)),
    ])
}

// The entries behind the first ones of two tables.
fn unlike_behind<T: PartialEq>(a: &[T], b: &[T], from: usize) -> u64 {
    a.iter().zip(b).skip(from).filter(|(x, y)| x != y).count() as u64
}

// What five tables have behind the entries of a hall of n stops, against five others.
fn behind(n: u64, tables: &Tables, others: &Tables) -> u64 {
    let count = cells(n);
    sum(&[
        unlike_behind(&tables.cost, &others.cost, count),
        unlike_behind(&tables.time, &others.time, count),
        unlike_behind(&tables.ways, &others.ways, count),
        unlike_behind(&tables.share, &others.share, count),
        unlike_behind(&tables.score, &others.score, tables::stops(n)),
    ])
}

// Whether tables are not those of their own costs and passing times, or the costs are not valid; `seen` is the book of both.
pub fn are_wrong(tables: &Tables, seen: &Book) -> bool {
    seen.hall.costs.are_bad() || with_book(tables, seen) != 0
}

// By the old numbers, as the moving call tests them: no pair has more ways than their limit.
pub fn are_wrong_before(stops: u64, tables: &Tables) -> bool {
    let seen = Book::of_old(Costs::of(stops, tables));
    seen.is_crowded_before() || are_wrong(tables, &seen)
}

// The set of the first n rows that differ in two tables of a hall of n stops.
fn unlike_rows<T: PartialEq>(n: u64, a: &[T], b: &[T]) -> u64 {
    let n = tables::stops(n);
    if n == 0 {
        return 0;
    }
    let mut set = 0u64;
    for (s, (x, y)) in a.chunks(n).zip(b.chunks(n)).take(n).enumerate() {
        if x != y && s < 64 {
            set |= 1 << s;
        }
    }
    set
}

// The set of the sources whose row of times, ways and shares differs.
pub fn rows(n: u64, tables: &Tables, others: &Tables) -> u64 {
    unlike_rows(n, &tables.time, &others.time)
        | unlike_rows(n, &tables.ways, &others.ways)
        | unlike_rows(n, &tables.share, &others.share)
}

// What an edit left that was to reverse another one, and its answer, against the tables before the other one and its answer.
pub fn reversed(former: &Tables, undone: &Answer, left: &Tables, answer: &Answer) -> u64 {
    sum(&[
        left.unlike(former),
        u64::from(answer.refusal.is_some()),
        u64::from(answer.touched != undone.touched),
        u64::from(answer.rows != undone.rows),
    ])
}

// An accepted call leaves the tables and the passing times of the book, and what stood behind them.
fn with_accepted(trial: &Trial) -> u64 {
    let book = &trial.verdict.book;
    let left = trial.left;
    let stops = book.stops();
    let times = &book.hall.passing.times;
    sum(&[
        unlike(&left.passing, times, tables::stops(stops)),
        with_book(left, book),
        behind(stops, left, trial.former),
    ])
}

// What a call left and said, against its verdict. A refused call leaves all as it was.
pub fn differences(trial: &Trial) -> u64 {
    let outcome = trial.outcome;
    let verdict = trial.verdict;
    let tables = if verdict.is_accepted() {
        with_accepted(trial)
    } else {
        trial.left.unlike(trial.former)
    };
    let answers = outcome.answer.unlike(&verdict.answer);
    let buffers = u64::from(outcome.bytes != verdict.bytes);
    sum(&[tables, answers, buffers])
}
