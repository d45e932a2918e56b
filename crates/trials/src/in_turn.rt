// A list of edits, judged in turn: each as an edit of its own, in the hall that its predecessors made.
use super::edit;
use super::hall_book::Book;
use super::refused::Refused;
use book::{Edit, Refusal};
use calls::list::List;

// What has come of the edits so far: the book that they left, the sources that they touched and whether they left a crowded pair.
#[derive(Clone, Copy)]
pub struct Standing {
    pub book: Book,
    pub touched: u64,
    pub crowded: bool,
}

impl Standing {
    // One edit more.
    fn turn(&mut self, edit: &Edit) -> Result<(), Refusal> {
        let edited = edit::judged(edit, &self.book)?;
        self.touched |= edited.touched;
        self.crowded |= edited.book.is_crowded();
        self.book = edited.book;
        Ok(())
    }
}

// What comes of a list, or the refusal of the first refused edit and its place.
pub fn listed(list: &List, book: &Book) -> Result<Standing, Refused> {
    let mut standing = Standing {
        book: *book,
        touched: 0,
        crowded: false,
    };
    for (i, edit) in list.edits().iter().enumerate() {
        if let Err(refusal) = standing.turn(edit) {
            let place = (i as u64).wrapping_add(1);
            return Err(Refused { refusal, place });
        }
    }
    Ok(standing)
}
