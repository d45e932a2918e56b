// Counts what crowded pairs do.
use super::compare::rows;
use super::count::Count;
use super::hall_book::{Book, is_crowded};
use super::pair::Pair;
use super::tally::Tally;
use super::trial::Trial;
use book::Refusal;
use calls::answer::Answer;
use calls::call::Act;
use calls::tables::cells;

// Whether a pair is crowded in one book and not in another.
fn some_alone(book: &Book, other: &Book) -> bool {
    book.ways
        .iter()
        .zip(&other.ways)
        .take(cells(book.stops()))
        .any(|(ways, others)| is_crowded(*ways) && !is_crowded(*others))
}

// Counts an accepted edit by whether there is a crowded pair before or after it, and by whether it made one crowded, or uncrowded.
fn note_pairs(tally: &mut Tally, before: &Book, after: &Book, either: bool) {
    let count = if either {
        Count::CrowdedEdits
    } else {
        Count::UncrowdedEdits
    };
    tally.add(count, 1);
    tally.add_if(Count::Made, some_alone(after, before));
    tally.add_if(Count::Unmade, some_alone(before, after));
}

// Counts the touched rows of an accepted edit that look the same, and says how many rows are not as the rule has them: an untouched
// row that changed or, where no pair is crowded before or after, a touched one that did not.
fn note_rows(tally: &mut Tally, touched: u64, changed: u64, either: bool) -> u64 {
    let alike = lister::number(touched & !changed);
    let strayed = lister::number(changed & !touched);
    if either {
        tally.add(Count::Alike, alike);
        return strayed;
    }
    strayed.wrapping_add(alike)
}

// Whether a pair is crowded before a call or after it.
fn is_crowded_at_ends(before: &Book, after: &Book) -> bool {
    before.is_crowded() || after.is_crowded()
}

// Counts an accepted call by the hall that it left, and says how many of the rows of an edit are not as they should be.
pub fn note(tally: &mut Tally, trial: &Trial) -> u64 {
    let before = trial.case.book;
    let verdict = trial.verdict;
    let after = &verdict.book;
    tally.add_if(Count::Crowded, after.is_crowded());
    if !matches!(trial.case.ask.call.act, Act::Edit(_)) {
        return 0;
    }
    let either = is_crowded_at_ends(before, after);
    note_pairs(tally, before, after, either);
    let changed = rows(before.stops(), trial.former, trial.left);
    note_rows(tally, verdict.answer.touched, changed, either)
}

// The stops of the entry at which a route list points, if its stops are cut to 32 bits and not tested: an entry behind the end of
// a row stands in the next.
fn pointed(stops: u64, ends: Pair) -> Pair {
    let row = ends.u % 4294967296;
    let column = ends.v % 4294967296;
    if stops <= column {
        return Pair::new(row + 1, column - stops);
    }
    Pair::new(row, column)
}

// Counts a route list that is refused with 14 where its buffer is too short too, or with 4 where the entry is that of a crowded pair.
// The list would have so many bytes.
pub fn note_routes(tally: &mut Tally, trial: &Trial, ends: Pair, length: usize) {
    let book = trial.case.book;
    match trial.outcome.answer.refusal {
        Some(Refusal::CrowdedPair) => {
            let short = trial.case.ask.buffer.length < length;
            tally.add_if(Count::CrowdedAndShort, short);
        }
        Some(Refusal::BadStop) => {
            let ways = book.ways_of(pointed(book.stops(), ends));
            tally.add_if(Count::PastCrowded, is_crowded(ways));
        }
        _ => {}
    }
}

// Counts an accepted list with a crowded pair in passing, but neither before nor after.
pub fn note_list(tally: &mut Tally, trial: &Trial) {
    let verdict = trial.verdict;
    if verdict.is_accepted() {
        let ends = is_crowded_at_ends(trial.case.book, &verdict.book);
        tally.add_if(Count::CrowdedInPassing, verdict.passed && !ends);
    }
}

// Counts a moving call on right tables with a crowded pair.
pub fn note_move(tally: &mut Tally, book: &Book, answer: &Answer) {
    let kept = matches!(answer.refusal, Some(Refusal::BadTables));
    tally.add_if(Count::CrowdedMoves, kept && book.is_crowded());
}

// Counts an edit that is to be reversed, with a crowded pair before or after it.
pub fn note_reversed(tally: &mut Tally, before: &Book, after: &Book) {
    tally.add_if(Count::ReversedCrowded, is_crowded_at_ends(before, after));
}
