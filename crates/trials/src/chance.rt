// Chance: a small generator of numbers, the same at each run.
ghost use Rattle.std.specs.Prelude.{◌<◌, length};

#[derive(Drop)]
pub struct Chance {
    seed: u64,
}

impl Chance {
    pub fn new(seed: u64) -> Self {
        Chance { seed }
    }

    // The next number of the generator, below a limit; 0 where the limit is 0.
    pub fn draw(&mut self, below: u64) -> u64
        ensures small { result < 2147483647 }
        ensures in_range { 0 < below → result < below }
    {
        let next = self.seed % 2147483647 * 48271 % 2147483647;
        self.seed = next;
        if below == 0 { 0 } else { next % below }
    }

    // Whether the next number is 0, which happens once in so many draws.
    pub fn once_in(&mut self, many: u64) -> bool {
        self.draw(many) == 0
    }

    // One of some values, each as often as the others.
    pub fn pick<T: Copy>(&mut self, values: &[T]) -> T
        requires { 0 < length values.now }
    {
        let i = self.draw(values.len() as u64);
        values[i as usize]
    }

    // One of some values, each for as many draws as stand in front of it, of `below` in all; the rest of them give another value.
    pub fn weighed<T: Copy>(&mut self, below: u64, values: &[(u64, T)], rest: T) -> T {
        let mut left = self.draw(below);
        for (draws, value) in values {
            if left < *draws {
                return *value;
            }
            left -= *draws;
        }
        rest
    }
}
