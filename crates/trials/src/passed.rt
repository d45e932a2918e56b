// Counts what passing times do.
use super::count::Count;
use super::hall_book::Book;
use super::model::Verdict;
use super::passing::Passing;
use super::small_hall::Hall;
use super::tally::Tally;
use super::trial::Trial;
use book::Refusal;
use calls::call::Act;
use calls::compare::unlike;
use calls::tables::cells;

// Counts a refusal of passing times that are too large, or of lengths where they are so too.
pub fn note_bad(tally: &mut Tally, trial: &Trial) {
    let case = &trial.case;
    match trial.outcome.answer.refusal {
        Some(Refusal::BadLength) => tally.add(Count::OddAndBad, 1),
        Some(Refusal::BadPassing) => {
            let both = case.wrong && case.ask.passing.is_none();
            tally.add_if(Count::BadAndWrong, both);
        }
        _ => {}
    }
}

// Counts a moving call in a hall with passing times above 0: an accepted one, or one that is refused though all shares are 0, since
// without the passing times the tables would be others.
fn note_move(tally: &mut Tally, verdict: &Verdict) {
    let book = &verdict.book;
    let count = cells(book.stops());
    let without_shares = book.share.iter().take(count).all(|share| *share == 0);
    tally.add_if(Count::PassedMoves, verdict.is_accepted());
    let kept = matches!(verdict.answer.refusal, Some(Refusal::BadTables));
    tally.add_if(Count::PassedKept, kept && without_shares);
}

// Counts an accepted call that brings passing times above 0, with the times that they change.
fn note_brought(tally: &mut Tally, book: &Book) {
    let costs = book.hall.costs;
    let plain = Book::of(Hall::new(costs, Passing::none(costs.stops)));
    tally.add(Count::PassedHalls, 1);
    let changed = unlike(&book.time, &plain.time, cells(costs.stops));
    tally.add(Count::PassedTimes, changed);
}

// Counts a call in a hall with passing times above 0.
pub fn note_passing(tally: &mut Tally, trial: &Trial) {
    let verdict = trial.verdict;
    let book = &verdict.book;
    if matches!(trial.case.ask.call.act, Act::MoveOver) {
        note_move(tally, verdict);
    }
    if !verdict.is_accepted() {
        return;
    }
    tally.add_if(Count::PassedTies, book.has_ties());
    tally.add_if(Count::PassedCrowded, book.is_crowded());
    if trial.case.ask.passing.is_some() {
        note_brought(tally, book);
    }
}
