// What a call answers: its refusal, if it is refused, and numbers.
ghost use Rattle.std.specs.Prelude.{◌≡◌, ◌↔◌};
ghost use Rattle.calls.specs.Answers.{number, of_refusal, of_outcome, of_edit, of_list, of_write};
ghost use Rattle.calls.specs.Alike.{Alike};

use book::{Edited, ListEdited, ListRefused, Refusal};

// Of an edit or a list of edits the set of touched sources and their number; of an edit the cost before; of a list the place
// of the refused edit; of an image write and a route list the length. A part that a call has no use for is 0, so that two answers are compared part by part.
#[derive(Clone, Copy, PartialEq, Eq)]
pub struct Answer {
    pub refusal: Option<Refusal>,
    pub touched: u64,
    pub rows: u64,
    pub before: u64,
    pub place: u64,
    pub length: u64,
}

impl Answer {
    // An acceptance that says nothing more.
    pub const ACCEPTED: Answer = Answer {
        refusal: None,
        touched: 0,
        rows: 0,
        before: 0,
        place: 0,
        length: 0,
    };

    // The documents' number of the refusal, 0 for an accepted call.
    pub fn number(&self) -> u64
        ensures { result ≡ number self.now.refusal }
    {
        self.refusal
            .map_or(0, |refusal| u64::from(refusal.number()))
    }

    // How many of its parts differ from those of another answer: a number, which is added to counts that are printed.
    pub fn unlike(&self, other: &Answer) -> u64
        ensures { (result ≡ 0) ↔ Alike self.now other.now }
    {
        u64::from(self.refusal != other.refusal)
            + u64::from(self.touched != other.touched)
            + u64::from(self.rows != other.rows)
            + u64::from(self.before != other.before)
            + u64::from(self.place != other.place)
            + u64::from(self.length != other.length)
    }
}

// A refusal, or an acceptance that says nothing more.
impl From<Option<Refusal>> for Answer {
    ghost from_gives = { λ refusal answer. answer ≡ of_refusal refusal };

    fn from(refusal: Option<Refusal>) -> Answer {
        Answer {
            refusal,
            ..Answer::ACCEPTED
        }
    }
}

impl From<Result<(), Refusal>> for Answer {
    ghost from_gives = { λ outcome answer. answer ≡ of_outcome outcome };

    fn from(outcome: Result<(), Refusal>) -> Answer {
        Answer::from(outcome.err())
    }
}

impl From<Result<Edited, Refusal>> for Answer {
    ghost from_gives = { λ outcome answer. answer ≡ of_edit outcome };

    fn from(outcome: Result<Edited, Refusal>) -> Answer {
        match outcome {
            Ok(edited) => Answer {
                touched: edited.touched,
                rows: u64::from(edited.rows),
                before: u64::from(edited.before),
                ..Answer::ACCEPTED
            },
            Err(refusal) => Answer::from(Some(refusal)),
        }
    }
}

impl From<Result<ListEdited, ListRefused>> for Answer {
    ghost from_gives = { λ outcome answer. answer ≡ of_list outcome };

    fn from(outcome: Result<ListEdited, ListRefused>) -> Answer {
        match outcome {
            Ok(edited) => Answer {
                touched: edited.touched,
                rows: u64::from(edited.rows),
                ..Answer::ACCEPTED
            },
            Err(refused) => Answer {
                refusal: Some(refused.refusal),
                place: u64::from(refused.place),
                ..Answer::ACCEPTED
            },
        }
    }
}

impl From<Result<usize, Refusal>> for Answer {
    ghost from_gives = { λ outcome answer. answer ≡ of_write outcome };

    fn from(outcome: Result<usize, Refusal>) -> Answer {
        match outcome {
            Ok(length) => Answer {
                length: length as u64,
                ..Answer::ACCEPTED
            },
            Err(refusal) => Answer::from(Some(refusal)),
        }
    }
}
