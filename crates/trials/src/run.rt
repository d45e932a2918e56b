// Sequences of calls.
use super::ask::Ask;
use super::chance::Chance;
use super::compare::{are_wrong, reversed};
use super::count::Count;
use super::hall_book::Book;
use super::passing::Passing;
use super::small_hall::Hall;
use super::spoil::spoil;
use super::tally::Tally;
use super::trial::{Said, Stand};
use super::{choose, crowds, old};
use book::Edit;
use calls::call::{Act, Name};
use calls::tables::Tables;

// The chance by which calls are drawn, what is counted of them, and the hall that they are made on.
#[derive(Drop)]
pub struct Run {
    pub chance: Chance,
    pub tally: Tally,
    pub stand: Stand,
}

impl Run {
    pub fn new(seed: u64) -> Self {
        Run {
            chance: Chance::new(seed),
            tally: Tally::new(),
            stand: Stand::empty(0),
        }
    }

    // A call that nothing follows.
    fn plain_step(&mut self, ask: &Ask) {
        let _said = self.stand.trial(&mut self.tally, ask, false);
    }

    // Changes an entry or two of tables of the hall.
    pub fn spoil(&mut self, tables: &mut Tables) {
        self.tally.add(Count::Spoiled, 1);
        spoil(&mut self.chance, self.stand.stops(), tables);
    }

    // A call on tables with an entry or two changed, which are put back where the call is refused. Where the
    // tables are still right, they are those of another hall.
    fn spoiled_step(&mut self, ask: &Ask) {
        let mut other = self.stand;
        self.spoil(&mut other.tables);
        let seen = Book::of(Hall::of(other.stops(), &other.tables));
        let wrong = are_wrong(&other.tables, &seen);
        if wrong || seen.hall.passing.is_bad() {
            let said = other.trial(&mut self.tally, ask, wrong);
            self.stand.take(&other, &said);
            return;
        }
        other.book = seen;
        self.stand = other;
        self.plain_step(ask);
    }

    // Reverses an accepted edit, from what it answered: the five tables are to be those before it.
    fn reverse(&mut self, ask: &Ask, edit: &Edit, former: &Stand, undone: &Said) {
        let stand = &mut self.stand;
        let tally = &mut self.tally;
        crowds::note_reversed(tally, &former.book, &stand.book);
        tally.add_reversed(edit.kind);
        let said = stand.trial(tally, &choose::reversal(ask, edit, &undone.answer), false);
        let differ = reversed(&former.tables, &undone.answer, &stand.tables, &said.answer);
        tally.add_differences(differ);
    }

    // An edit of one link; now and then, where it is accepted, it is reversed at once.
    fn edit_step(&mut self, ask: &Ask, edit: &Edit) {
        let former = self.stand;
        let said = self.stand.trial(&mut self.tally, ask, false);
        if !said.refused && self.chance.once_in(3) {
            self.reverse(ask, edit, &former, &said);
        }
    }

    // A call with chosen arguments. Now and then it is made on tables with an entry or two changed, where it reads them.
    fn step(&mut self, name: Name) {
        let ask = choose::ask(&mut self.chance, name, &self.stand.book.hall);
        match &ask.call.act {
            Act::MoveOver => self.moving_step(&ask),
            Act::ImageCheck => self.plain_step(&ask),
            _ if self.chance.once_in(8) => self.spoiled_step(&ask),
            Act::Edit(edit) => self.edit_step(&ask, edit),
            _ => self.plain_step(&ask),
        }
    }

    // An empty hall, over tables of any content; in three of four cases a work out follows.
    fn begin_empty(&mut self) {
        let stops = self.stand.stops();
        let passing = Passing::drawn(&mut self.chance, stops);
        let ask = Ask::plain(Act::EmptyHall, stops, Some(passing));
        self.stand.book = Book::of(Hall::empty(stops));
        let _said = self.stand.trial(&mut self.tally, &ask, true);
        if !self.chance.once_in(4) {
            self.step(Name::WorkOut);
        }
    }

    // The old tables of a drawn hall, sometimes with one entry changed.
    fn old_tables(&mut self) -> Tables {
        let mut tables = old::drawn(&mut self.chance, self.stand.stops());
        if self.chance.once_in(8) {
            self.spoil(&mut tables);
        }
        tables
    }

    // A moved hall; where it does not move over, an empty one.
    fn begin_moved(&mut self) {
        let tables = self.old_tables();
        self.stand.tables = tables;
        let ask = Ask::plain(Act::MoveOver, self.stand.stops(), None);
        let said = self.stand.move_other(&mut self.tally, &ask);
        if said.refused {
            self.begin_empty();
            return;
        }
        self.tally.add(Count::Moved, 1);
        self.tally
            .add_if(Count::MovedTies, self.stand.book.has_ties());
    }

    // A sequence on a hall of its own. Nearly all begin with a moving call, so that about half start from a moved hall.
    pub fn sequence(&mut self) {
        self.stand = Stand::empty(choose::stops(&mut self.chance));
        self.tally.add(Count::Sequences, 1);
        if self.chance.once_in(12) {
            self.begin_empty();
        } else {
            self.begin_moved();
        }
        for _ in 0..40 + self.chance.draw(41) {
            let name = choose::name(&mut self.chance);
            self.step(name);
        }
    }
}
