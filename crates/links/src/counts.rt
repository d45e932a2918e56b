// Ways in 16 bits, while those into a stop are added up.
ghost use Rattle.std.specs.Prelude.{◌≡◌, ◌+◌, ◌≤◌};
ghost use Rattle.links.specs.Promise.{sum_bound};

// A sum with the ways of one more stop. Ways into a stop are added up here alone, and no sum passes 63 × 22 = 1,386, also where a
// pair has more ways than the limit.
pub fn add(sum: u16, more: u16) -> u16
    requires { sum + more ≤ sum_bound }
    ensures { result ≡ sum + more }
{
    sum + more
}
