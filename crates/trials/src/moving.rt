// Moving calls.
use super::ask::Ask;
use super::compare::are_wrong_before;
use super::costs::Costs;
use super::hall_book::Book;
use super::passing::Passing;
use super::run::Run;
use super::small_hall::Hall;
use super::tally::Tally;
use super::trial::{Said, Stand};
use super::{crowds, old};

impl Stand {
    // A moving call, which judges five tables by the old numbers and passing times of 0. Their costs are the book's.
    fn move_over(&mut self, tally: &mut Tally, ask: &Ask) -> Said {
        let wrong = are_wrong_before(self.stops(), &self.tables);
        self.trial(tally, ask, wrong)
    }

    // On the present tables, which have the new scale.
    fn move_present(&mut self, tally: &mut Tally, ask: &Ask) {
        let book = self.book;
        let said = self.move_over(tally, ask);
        crowds::note_move(tally, &book, &said.answer);
        if said.answer.refusal.is_none() {
            tally.add_move(book.all_ways(), &said.answer);
        }
    }

    // On tables of another hall, which is moved over with passing times of 0.
    pub fn move_other(&mut self, tally: &mut Tally, ask: &Ask) -> Said {
        let stops = self.stops();
        Passing::none(stops).put_into(&mut self.tables);
        let book = Book::of(Hall::of(stops, &self.tables));
        self.book = book;
        let said = self.move_over(tally, ask);
        tally.add_move(book.all_ways(), &said.answer);
        said
    }
}

impl Run {
    // The tables of another hall for a moving call: the present ones with an entry changed, or the old ones of their costs.
    fn other_hall(&mut self) -> Stand {
        let mut other = self.stand;
        if self.chance.once_in(2) {
            let costs = Costs::of(other.stops(), &other.tables);
            old::set_of_costs(&costs, &mut other.tables);
        } else {
            self.spoil(&mut other.tables);
        }
        other
    }

    // A moving call within a sequence, mostly on the present tables; where one on others is refused, the present ones are put back.
    pub fn moving_step(&mut self, ask: &Ask) {
        if !self.chance.once_in(4) {
            self.stand.move_present(&mut self.tally, ask);
            return;
        }
        let mut other = self.other_hall();
        let said = other.move_other(&mut self.tally, ask);
        self.stand.take(&other, &said);
    }
}
