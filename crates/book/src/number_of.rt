// The documents' number of a refusal, and of what a call came to.
ghost use Rattle.std.specs.Prelude.{◌≡◌, Err};
ghost use Rattle.book.specs.Call.{number};

use super::Refusal;

impl Refusal {
    pub fn number(self) -> u32
        ensures { result ≡ number (Err self) }
    {
        self as u32
    }
}

// 0 for an accepted call.
pub fn number_of(outcome: Result<(), Refusal>) -> u32
    ensures { result ≡ number outcome }
{
    match outcome {
        Ok(()) => 0,
        Err(refusal) => refusal.number(),
    }
}
