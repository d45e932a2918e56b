// A refusal, as a call answers it.
use book::Refusal;

// The refusal of a call, and of a list the place of the refused edit.
#[derive(Clone, Copy)]
pub struct Refused {
    pub refusal: Refusal,
    pub place: u64,
}

impl From<Refusal> for Refused {
    fn from(refusal: Refusal) -> Self {
        Refused { refusal, place: 0 }
    }
}
