// A hall of at most 64 stops as it is lent: its cost table and its stops' passing times.
ghost use Rattle.std.specs.Prelude.{◌≡◌, ◌+◌, ◌*◌, ◌<◌, ◌≤◌, min};

// The most stops of a hall, and so of a route.
pub const STOPS: usize = 64;

// A stop, by its number.
#[derive(Clone, Copy, PartialEq, Eq)]
pub struct Stop {
    number: u8,
    ghost few: { number < 64 },
}

// What a place of a route holds that is not in use.
impl Default for Stop {
    fn default() -> Stop {
        Stop { number: 0 }
    }
}

impl Stop {
    pub fn new(number: usize) -> Stop
        requires { number < 64 }
        ensures { result.number ≡ number }
    {
        Stop {
            number: number as u8,
        }
    }

    pub fn number(self) -> usize
        ensures number { result ≡ self.number }
        ensures few { result < 64 }
    {
        usize::from(self.number)
    }
}

// The link from one stop to another.
#[derive(Clone, Copy)]
pub struct Link {
    pub from: Stop,
    pub to: Stop,
}

#[derive(Clone, Copy)]
pub struct Hall<'a> {
    pub n: usize,
    cost: &'a [u32],
    passing: &'a [u32],
    ghost few: { n ≤ 64 },
}

impl<'a> Hall<'a> {
    // A larger n counts as 64.
    pub fn new(cost: &'a [u32], passing: &'a [u32], n: u64) -> Hall<'a>
        ensures { result.n ≡ min n 64 }
    {
        let n = n.min(STOPS as u64) as usize;
        Hall { n, cost, passing }
    }

    // The stop of this number, if the hall has it.
    pub fn stop(&self, number: u64) -> Option<Stop> {
        if number < self.n as u64 {
            Some(Stop::new(number as usize))
        } else {
            None
        }
    }

    // The link between the stops of these numbers, if the hall has both.
    pub fn link(&self, from: u64, to: u64) -> Option<Link> {
        Some(Link {
            from: self.stop(from)?,
            to: self.stop(to)?,
        })
    }

    // Where a table has its entry for u and v.
    pub fn cell(&self, u: usize, v: usize) -> usize
        requires u_bound { u < 64 }
        requires v_bound { v < 64 }
        ensures { result ≡ u * self.now.n + v }
    {
        u * self.n + v
    }

    // The cost of the link from u to v, 0 where there is none.
    pub fn cost(&self, u: Stop, v: Stop) -> u32 {
        let at = self.cell(u.number(), v.number());
        self.cost.get(at).copied().unwrap_or(0)
    }

    // The passing time of v, 0 where the table has none.
    pub fn passing_time(&self, v: Stop) -> u32 {
        self.passing.get(v.number()).copied().unwrap_or(0)
    }
}
