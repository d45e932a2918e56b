// Sets of stops in words.
ghost use Rattle.std.specs.Prelude.{◌≡◌, ◌^◌, ◌<◌};
ghost use Rattle.std.specs.Iterator.{at_most};
ghost use Rattle.links.specs.Stops.{Takes};

// The stops of a set, from the lowest on: bit t of the word stands for the stop t.
#[derive(Clone, Copy)]
pub struct Stops(pub u64);

impl Iterator for Stops {
    type Item = usize;

    ghost next_gives = { λ s r t. Takes s.0 r t.0 };

    ghost remaining = { λ s. at_most s.0 };

    fn next(&mut self) -> Option<usize> {
        if self.0 == 0 {
            return None;
        }
        let t = self.0.trailing_zeros() as usize;
        self.0 &= self.0 - 1;
        Some(t)
    }
}

// The set of one stop.
pub fn only(t: usize) -> u64
    requires { t < 64 }
    ensures { result ≡ 2 ^ t }
{
    1 << t
}
