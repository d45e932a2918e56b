// What a call must answer and leave: document 01's rules over a book of links and passing times, and the lister's
// tables of these.
use super::ask::Ask;
use super::buffer::BYTES;
use super::costs::Costs;
use super::hall_book::{Book, is_crowded};
use super::output::written;
use super::pair::Pair;
use super::passing::Passing;
use super::refused::Refused;
use super::small_hall::Hall;
use super::{edit, image, in_turn};
use book::{Edit, Refusal};
use calls::answer::Answer;
use calls::call::Act;
use calls::lengths::{Odd, Table};
use calls::list::List;

// A call on the tables of a hall, with the passing times that it is lent: `wrong` says that the tables are not those of their
// hall, for the moving call by the old numbers.
#[derive(Clone, Copy)]
pub struct Case<'a> {
    pub ask: &'a Ask,
    pub book: &'a Book,
    pub lent: &'a Passing,
    pub wrong: bool,
}

// What a call must say, the book and the bytes of the buffer after it, and whether a list of edits passed a hall with a crowded
// pair.
#[derive(Clone, Copy)]
pub struct Verdict {
    pub answer: Answer,
    pub book: Book,
    pub bytes: [u8; BYTES],
    pub passed: bool,
}

impl Verdict {
    pub fn is_accepted(&self) -> bool {
        self.answer.refusal.is_none()
    }
}

// The most edits of a list.
const EDITS: usize = 32;

// Whether a table that a call takes has another length. A moving call takes no passing times.
fn is_odd(act: &Act, odd: Option<Odd>) -> bool {
    match (act, odd) {
        (_, None) => false,
        (Act::MoveOver, Some(Odd::Short(Table::Passing) | Odd::Long(Table::Passing))) => false,
        _ => true,
    }
}

// Refusals 1 and 2: n, and the lengths of the tables.
fn test_size(ask: &Ask, stops: u64) -> Result<(), Refusal> {
    let n = ask.call.n;
    let act = &ask.call.act;
    if n == 0 || 64 < n {
        return Err(Refusal::BadSize);
    }
    if matches!(act, Act::ImageCheck) {
        return Ok(());
    }
    if n != stops || is_odd(act, ask.odd) {
        return Err(Refusal::BadLength);
    }
    Ok(())
}

// Refusal 13. A moving call and an image check do not test the passing times.
fn test_passing(act: &Act, lent: &Passing) -> Result<(), Refusal> {
    match act {
        Act::MoveOver | Act::ImageCheck => Ok(()),
        _ if lent.is_bad() => Err(Refusal::BadPassing),
        _ => Ok(()),
    }
}

// Refusal 9 of image read and image check.
fn test_image(ask: &Ask) -> Result<(), Refusal> {
    if image::is_valid(ask.call.n, &ask.buffer) {
        return Ok(());
    }
    Err(Refusal::BadImage)
}

// Refusals 4 and 14 of a route list, which may lead from a stop to itself.
fn test_routes(ends: Pair, book: &Book) -> Result<(), Refusal> {
    if !ends.is_in(book.stops()) {
        return Err(Refusal::BadStop);
    }
    if is_crowded(book.ways_of(ends)) {
        return Err(Refusal::CrowdedPair);
    }
    Ok(())
}

impl Case<'_> {
    // A call that leaves the hall and the buffer as they are.
    fn kept(self, refusal: Option<Refusal>) -> Verdict {
        let bytes = self.ask.buffer.bytes;
        Verdict {
            answer: Answer::from(refusal),
            book: *self.book,
            bytes,
            passed: false,
        }
    }

    fn accepted(self) -> Verdict {
        self.kept(None)
    }

    fn refused(self, refused: Refused) -> Verdict {
        let mut verdict = self.kept(Some(refused.refusal));
        verdict.answer.place = refused.place;
        verdict
    }

    // An accepted call that sets links, and passing times where it brings them.
    fn set(self, costs: Costs) -> Verdict {
        let passing = self.ask.passing.unwrap_or(self.book.hall.passing);
        let mut verdict = self.accepted();
        verdict.book = Book::of(Hall::new(costs, passing));
        verdict
    }

    // Refusal 5 of work out.
    fn worked_out(self) -> Result<Verdict, Refusal> {
        let costs = self.ask.costs.unwrap_or(self.book.hall.costs);
        if costs.are_bad() {
            return Err(Refusal::BadCost);
        }
        Ok(self.set(costs))
    }

    fn image_read(self) -> Result<Verdict, Refusal> {
        let ask = self.ask;
        test_image(ask)?;
        Ok(self.set(image::read(self.book.stops(), &ask.buffer)))
    }

    fn image_checked(self) -> Result<Verdict, Refusal> {
        test_image(self.ask)?;
        Ok(self.accepted())
    }

    // An accepted edit or list, which touched these sources.
    fn touched(self, touched: u64, book: &Book) -> Verdict {
        let mut verdict = self.accepted();
        verdict.answer.touched = touched;
        verdict.answer.rows = lister::number(touched);
        verdict.book = *book;
        verdict
    }

    fn edit_link(self, edit: &Edit) -> Result<Verdict, Refusal> {
        let edited = edit::judged(edit, self.book)?;
        let mut verdict = self.touched(edited.touched, &edited.book);
        verdict.answer.before = edited.before;
        Ok(verdict)
    }

    // Refusal 12 of a list of edits; the edits are judged in their turn.
    fn edit_list(self, list: &List) -> Result<Verdict, Refused> {
        if EDITS < list.edits().len() {
            return Err(Refused::from(Refusal::ListTooLong));
        }
        let end = in_turn::listed(list, self.book)?;
        let mut verdict = self.touched(end.touched, &end.book);
        verdict.passed = end.crowded;
        Ok(verdict)
    }

    // Refusal 10 of the calls that write.
    fn write(self) -> Result<Verdict, Refusal> {
        let ask = self.ask;
        let output = written(&ask.call.act, &self.book.hall, &ask.buffer);
        if ask.buffer.length < output.length {
            return Err(Refusal::ShortBuffer);
        }
        let mut verdict = self.accepted();
        verdict.answer.length = output.length as u64;
        let bytes = output.bytes;
        verdict.bytes = bytes;
        Ok(verdict)
    }

    fn list_routes(self, ends: Pair) -> Result<Verdict, Refusal> {
        test_routes(ends, self.book)?;
        self.write()
    }

    // Refusal 11 of a moving call. It leaves the tables of the book.
    fn move_over(self) -> Result<Verdict, Refusal> {
        if self.book.is_crowded() {
            return Err(Refusal::TooManyWays);
        }
        Ok(self.accepted())
    }

    // A call that tests the tables, where they are those of their hall.
    fn held(self) -> Result<Verdict, Refused> {
        match &self.ask.call.act {
            Act::Edit(edit) => Ok(self.edit_link(edit)?),
            Act::EditList(list) => self.edit_list(list),
            Act::ImageWrite => Ok(self.write()?),
            Act::ListRoutes { s, t } => Ok(self.list_routes(Pair::new(*s, *t))?),
            Act::MoveOver => Ok(self.move_over()?),
            _ => Ok(self.accepted()),
        }
    }

    // Refusals come by rising number but for 13, which follows 2, and 14, which follows 4.
    fn judged(self) -> Result<Verdict, Refused> {
        let stops = self.book.stops();
        let act = &self.ask.call.act;
        test_size(self.ask, stops)?;
        test_passing(act, self.lent)?;
        match act {
            Act::EmptyHall => Ok(self.set(Costs::none(stops))),
            Act::WorkOut => Ok(self.worked_out()?),
            Act::ImageRead => Ok(self.image_read()?),
            Act::ImageCheck => Ok(self.image_checked()?),
            _ if self.wrong => Err(Refused::from(Refusal::BadTables)),
            _ => self.held(),
        }
    }

    // What the call must answer and leave.
    pub fn expect(self) -> Verdict {
        match self.judged() {
            Ok(verdict) => verdict,
            Err(refusal) => self.refused(refusal),
        }
    }
}
