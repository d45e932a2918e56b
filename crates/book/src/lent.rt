// The tables of a hall as a host lends them: the costs, the passing times, and the four tables that follow from them.
ghost use Rattle.std.specs.Prelude.{◌≡◌};
ghost use Rattle.book.specs.Contract.{these, seen, held};

// Lent to be read.
#[derive(Clone, Copy)]
pub struct Lent<'a> {
    pub cost: &'a [u32],
    pub passing: &'a [u32],
    pub time: &'a [u32],
    pub ways: &'a [u32],
    pub share: &'a [u64],
    pub score: &'a [u64],
}

impl<'a> Lent<'a> {
    pub fn new(
        cost: &'a [u32],
        passing: &'a [u32],
        time: &'a [u32],
        ways: &'a [u32],
        share: &'a [u64],
        score: &'a [u64],
    ) -> Lent<'a>
        ensures { seen result ≡ these cost.now passing.now time.now ways.now share.now score.now }
    {
        Lent {
            cost,
            passing,
            time,
            ways,
            share,
            score,
        }
    }
}

// Lent to be written, but for the passing times, which the host sets.
#[derive(Drop)]
pub struct LentMut<'a> {
    pub cost: &'a mut [u32],
    pub passing: &'a [u32],
    pub time: &'a mut [u32],
    pub ways: &'a mut [u32],
    pub share: &'a mut [u64],
    pub score: &'a mut [u64],
}

impl LentMut<'_> {
    // The same tables, to be read.
    pub fn view(&self) -> Lent<'_>
        ensures { seen result ≡ held self.now }
    {
        Lent {
            cost: self.cost,
            passing: self.passing,
            time: self.time,
            ways: self.ways,
            share: self.share,
            score: self.score,
        }
    }
}
