// The door: the tests that every call on the five tables begins with.
ghost use Rattle.std.specs.Prelude.{◌≡◌};
ghost use Rattle.book.specs.Contract.{seen, door_tests};

use book::Refusal;
use book::lent::Lent;
use book::limits::Hall;
use cells::{costs, places};

// Tests 1, 2 and 13: a number of stops, tables of its lengths, and passing times that are not too long.
pub fn door(n: u64, t: &Lent<'_>) -> Result<(), Refusal>
    ensures { result ≡ door_tests n (seen t.now) }
{
    if !Hall::takes(n) {
        return Err(Refusal::BadSize);
    }
    if !places::sized(n as usize, t) {
        return Err(Refusal::BadLength);
    }
    if !costs::within(Hall::LARGEST_PASSING, t.passing) {
        return Err(Refusal::BadPassing);
    }
    Ok(())
}
