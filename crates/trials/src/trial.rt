// A trial: a call that was made, with what it had to answer and leave.
use super::ask::Ask;
use super::compare::differences;
use super::count::Count;
use super::hall_book::Book;
use super::model::{Case, Verdict};
use super::outcome::{Outcome, asked, lent};
use super::pair::Pair;
use super::small_hall::Hall;
use super::tally::Tally;
use super::{crowds, output, passed};
use book::Refusal;
use calls::answer::Answer;
use calls::call::Act;
use calls::list::List;
use calls::tables::Tables;

// The call with the book and the tables before it, its verdict, what it answered, and the tables that it left.
#[derive(Clone, Copy)]
pub struct Trial<'a> {
    pub case: Case<'a>,
    pub former: &'a Tables,
    pub verdict: &'a Verdict,
    pub outcome: &'a Outcome,
    pub left: &'a Tables,
}

// What a call answered, and whether it was to be refused: the verdict says so, and not the answer, which is the library's.
#[derive(Clone, Copy)]
pub struct Said {
    pub answer: Answer,
    pub refused: bool,
}

// A hall under trial: its book and its tables.
#[derive(Clone, Copy)]
pub struct Stand {
    pub book: Book,
    pub tables: Tables,
}

impl Trial<'_> {
    // Counts an answer, and what differs from its verdict.
    fn note_answer(&self, tally: &mut Tally) {
        let answer = &self.outcome.answer;
        let act = &self.case.ask.call.act;
        tally.add_answer(act.name(), answer);
        if !matches!(act, Act::ImageCheck) {
            tally.add(Count::Tables, 5);
        }
        tally.add(Count::Touched, answer.rows);
        let differ = differences(self);
        tally.add_differences(differ);
    }

    // Counts a call that is to be accepted, by the hall that it leaves. Rows that are not as the rule has them are differences.
    fn note_accepted(&self, tally: &mut Tally) {
        if self.verdict.is_accepted() {
            tally.add_if(Count::Ties, self.verdict.book.has_ties());
            let rows = crowds::note(tally, self);
            tally.add_differences(rows);
        }
    }

    // Counts a list: its length, the place of its refused edit, and whether it undid all that it did.
    fn note_list(&self, tally: &mut Tally, list: &List) {
        let answer = &self.outcome.answer;
        let length = list.edits().len();
        tally.add_list(length, answer);
        if answer.refusal.is_none() && length != 0 {
            let undone = self.left.unlike(self.former) == 0;
            tally.add_if(Count::Undone, undone);
        }
        crowds::note_list(tally, self);
    }

    // Counts a route list: what it has, or by how much its buffer was too short.
    fn note_routes(&self, tally: &mut Tally, ends: Pair) {
        let ask = self.case.ask;
        let list = output::written(&ask.call.act, &self.case.book.hall, &ask.buffer);
        match self.outcome.answer.refusal {
            None => tally.add_routes(&list, ends, ask.buffer.length),
            Some(Refusal::ShortBuffer) => {
                let one_more = ask.buffer.length.wrapping_add(1);
                tally.add_if(Count::OneShort, list.length == one_more);
            }
            _ => {}
        }
        crowds::note_routes(tally, self, ends, list.length);
    }

    // Counts a call by its kind.
    fn note_act(&self, tally: &mut Tally) {
        match &self.case.ask.call.act {
            Act::EditList(list) => self.note_list(tally, list),
            Act::ListRoutes { s, t } => self.note_routes(tally, Pair::new(*s, *t)),
            _ => {}
        }
    }

    // Counts a call by the passing times that it is lent.
    fn note_lent(&self, tally: &mut Tally) {
        let lent = self.case.lent;
        if lent.is_bad() {
            passed::note_bad(tally, self);
        }
        if lent.has_some() {
            passed::note_passing(tally, self);
        }
    }

    // Counts what came of a call.
    fn note(&self, tally: &mut Tally) {
        self.note_answer(tally);
        self.note_lent(tally);
        self.note_act(tally);
        self.note_accepted(tally);
    }
}

impl Stand {
    // A hall with no links, over tables of any content.
    pub fn empty(stops: u64) -> Self {
        Stand {
            book: Book::of(Hall::empty(stops)),
            tables: Tables::filled(7, 7),
        }
    }

    pub fn stops(&self) -> u64 {
        self.book.stops()
    }

    // Makes a call, and counts what comes of it. `wrong` says that the tables are not those of the book.
    pub fn trial(&mut self, tally: &mut Tally, ask: &Ask, wrong: bool) -> Said {
        let book = self.book;
        let former = self.tables;
        let stops = book.stops();
        let lent = lent(ask, stops, &former);
        let case = Case {
            ask,
            book: &book,
            lent: &lent,
            wrong,
        };
        let verdict = case.expect();
        let outcome = asked(ask, stops, &former, &mut self.tables);
        let trial = Trial {
            case,
            former: &former,
            verdict: &verdict,
            outcome: &outcome,
            left: &self.tables,
        };
        trial.note(tally);
        self.book = verdict.book;
        Said {
            answer: outcome.answer,
            refused: !verdict.is_accepted(),
        }
    }

    // After a call on other tables: where it was accepted, they become the present ones.
    pub fn take(&mut self, other: &Stand, said: &Said) {
        if !said.refused {
            *self = *other;
        }
    }
}
