// What is known of the quickest routes from one stop among those met so far.
ghost use Rattle.std.specs.Prelude.{◌≡◌, length};

use crate::hall::{Hall, Link, STOPS, Stop};
use crate::route::Route;
use crate::walk::{Visit, walk};

// The time where there is no route, as a table has it: no route that takes longer counts.
const MARK: u64 = 4294967295;

// The quickest routes to one stop: their time, their number, how many of them use one given link, and how many of them stop at each
// stop. A count is cut off at the most that 32 bits hold.
#[derive(Clone, Copy)]
pub struct Part {
    pub time: u64,
    pub ways: u32,
    pub using: u32,
    pub through: [u32; STOPS],
}

impl Part {
    // Routes of this time, of which none is counted yet.
    fn new(time: u64) -> Part {
        Part {
            time,
            ways: 0,
            using: 0,
            through: [0; STOPS],
        }
    }

    // Counts a route that takes their time.
    fn count(&mut self, route: &Route, uses: bool) {
        self.ways = self.ways.saturating_add(1);
        self.using = self.using.saturating_add(u32::from(uses));
        for v in route.stops() {
            let through = &mut self.through[v.number()];
            *through = through.saturating_add(1);
        }
    }
}

// A part for each stop, in fixed memory, and the link whose routes are counted apart, if there is one.
#[derive(Drop)]
pub struct Tally {
    parts: [Part; STOPS],
    link: Option<Link>,
}

impl Tally {
    pub fn new(link: Option<Link>) -> Tally {
        Tally {
            parts: [Part::new(MARK); STOPS],
            link,
        }
    }

    // The parts of the hall's stops.
    pub fn parts(&self, hall: &Hall<'_>) -> &[Part]
        ensures { length result.now ≡ hall.now.n }
    {
        &self.parts[..hall.n]
    }

    // The time of the quickest routes to t.
    pub fn time(&self, t: Stop) -> u64 {
        self.parts[t.number()].time
    }

    // Tallies every route from s.
    pub fn list(&mut self, hall: &Hall<'_>, s: Stop) {
        self.parts[..hall.n].fill(Part::new(MARK));
        walk(hall, &mut Route::new(s), self);
    }
}

// A route is held against the quickest to its last stop so far: a quicker one starts their part anew, and one as quick is counted.
impl Visit for Tally {
    ghost Becomes = { λ _ _. Unit {0} };

    ghost stays = { λ _. tt };

    ghost goes_on = { λ _ _ _ _ _. tt };

    fn visit(&mut self, hall: &Hall<'_>, route: &Route) {
        let part = &mut self.parts[route.last().number()];
        let taken = route.time(hall);
        if taken < part.time {
            *part = Part::new(taken);
        }
        if taken == part.time {
            let uses = self.link.is_some_and(|link| route.uses(link));
            part.count(route, uses);
        }
    }
}
