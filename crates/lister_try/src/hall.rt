// Halls that the lister is asked about, and the lines of its answers.
ghost use Rattle.std.specs.Prelude.{◌<◌};

use std::fmt::Display;
use std::io;

// The most ways of a pair that is not crowded, and what a whole share counts.
#[derive(Clone, Copy)]
pub struct Counting {
    pub limit: u32,
    pub scale: u32,
}

pub const TODAY: Counting = Counting {
    limit: 12,
    scale: 27720,
};

pub const BEFORE: Counting = Counting {
    limit: 22,
    scale: 232792560,
};

// Writes the rest of a line: these numbers.
fn numbers<T: Display>(rt: &impl Print, numbers: &[T]) -> io::Result<()> {
    for x in numbers {
        print!(rt; " {x}")?;
    }
    println!(rt;)
}

// Writes a line: a name and the first `count` numbers of a table.
fn line(rt: &impl Print, name: &str, table: &[u64], count: usize) -> io::Result<()> {
    print!(rt; "{name}")?;
    numbers(rt, &table[..count.min(table.len())])
}

// A cost table of links, each from a stop to another at a cost.
pub fn of_links<const N: usize>(n: u8, links: &[(u8, u8, u32)]) -> [u32; N] {
    let mut cost = [0; N];
    for &(u, v, c) in links {
        let at = usize::from(u) * usize::from(n) + usize::from(v);
        if let Some(entry) = cost.get_mut(at) {
            *entry = c;
        }
    }
    cost
}

// A hall of at most fifteen stops, as it is lent to the lister.
#[derive(Clone, Copy)]
pub struct Hall<'a> {
    cost: &'a [u32],
    passing: &'a [u32],
    n: u64,
}

impl<'a> Hall<'a> {
    pub fn new(cost: &'a [u32], passing: &'a [u32], n: u64) -> Hall<'a> {
        Hall { cost, passing, n }
    }

    // Writes the first entries of three tables of the hall, and its scores.
    pub fn tables(self, rt: &impl Print, counting: Counting, entries: usize) -> io::Result<()> {
        let mut time = [0; 225];
        let mut ways = [0; 225];
        let mut share = [0; 225];
        let mut score = [0; 15];
        lister::tables(
            self.cost,
            self.passing,
            self.n,
            counting.limit,
            counting.scale,
            &mut time,
            &mut ways,
            &mut share,
            &mut score,
        );
        line(rt, "time", &time, entries)?;
        line(rt, "ways", &ways, entries)?;
        line(rt, "share", &share, entries)?;
        line(rt, "score", &score, self.n as usize)
    }

    // Writes a line: two stops, and the bytes that the lister wrote of the quickest routes between them.
    pub fn routes(self, rt: &impl Print, s: u64, t: u64) -> io::Result<()> {
        self.routes_in(rt, s, t, &mut [0; 65])
    }

    // The same in this buffer.
    pub fn routes_in(self, rt: &impl Print, s: u64, t: u64, buffer: &mut [u8]) -> io::Result<()> {
        let length = lister::routes(self.cost, self.passing, self.n, s, t, buffer);
        print!(rt; "routes {s} {t}:")?;
        numbers(rt, &buffer[..length])
    }

    // Writes the set of the sources that a change of the link from u to v touches, and their number. `before` is the former cost
    // table.
    pub fn touched(self, rt: &impl Print, before: &[u32], u: u64, v: u64) -> io::Result<()> {
        let set = lister::touched(before, self.cost, self.passing, self.n, u, v);
        line(rt, "touched", &[set, lister::number(set)], 2)
    }
}

// A hall of four stops, which has no links at first.
#[derive(Drop)]
pub struct Edited<'a> {
    cost: [u32; 16],
    passing: &'a [u32],
}

impl<'a> Edited<'a> {
    pub fn new(passing: &'a [u32]) -> Edited<'a> {
        Edited {
            cost: [0; 16],
            passing,
        }
    }

    pub fn hall(&self) -> Hall<'_> {
        Hall::new(&self.cost, self.passing, 4)
    }

    // Gives the link from u to v the cost c, and writes what this touches.
    pub fn edit(&mut self, rt: &impl Print, u: u8, v: u8, c: u32) -> io::Result<()> {
        let before = self.cost;
        if let Some(entry) = self.cost.get_mut(usize::from(u) * 4 + usize::from(v)) {
            *entry = c;
        }
        self.hall().touched(rt, &before, u64::from(u), u64::from(v))
    }
}
