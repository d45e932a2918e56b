// A route in hand. No stop is on a route twice, so that none has more than 64.
ghost use Rattle.std.specs.Prelude.{◌≡◌, ◌-◌, ◌*◌, ◌<◌, ◌≤◌, [], ◌∷◌, ◌++◌, length, take, IsTrue, ◌↔◌};
ghost use Rattle.arrayvec.specs.ArrayVec.{array_vec_len};

use crate::hall::{Hall, Link, STOPS, Stop};
use arrayvec::ArrayVec;

// The stops in order, of which there is at least one.
#[derive(Drop)]
pub struct Route {
    stops: ArrayVec<Stop, STOPS>,
    ghost some: { 0 < array_vec_len stops },
}

impl Route {
    pub fn new(first: Stop) -> Route {
        let mut stops = ArrayVec::new();
        stops.push(first);
        Route { stops }
    }

    pub fn stops(&self) -> &[Stop]
        ensures stops { result.now ≡ self.now.stops.items }
        ensures some { 0 < array_vec_len self.now.stops }
        ensures few { array_vec_len self.now.stops ≤ 64 }
    {
        self.stops.as_slice()
    }

    pub fn last(&self) -> Stop {
        let stops = self.stops();
        stops[stops.len() - 1]
    }

    // Whether it can go on to one more stop.
    pub fn has_room(&self) -> bool
        ensures { IsTrue result ↔ (array_vec_len self.now.stops < 64) }
    {
        !self.stops.is_full()
    }

    // The route goes on to v.
    pub fn push(&mut self, v: Stop)
        requires { array_vec_len self.old.stops < 64 }
        ensures { self.new.stops.items ≡ self.old.stops.items ++ v ∷ [] }
    {
        self.stops.push(v);
    }

    // The route ends a stop before, but for its first stop.
    pub fn pop(&mut self)
        requires { 1 < array_vec_len self.old.stops }
        ensures { self.new.stops.items ≡ take (array_vec_len self.old.stops - 1) self.old.stops.items }
    {
        self.stops.pop();
    }

    // Whether it goes over the link.
    pub fn uses(&self, link: Link) -> bool {
        self.stops()
            .windows(2)
            .any(|pair| pair[0] == link.from && pair[1] == link.to)
    }

    // The sum of the costs of its links.
    fn on_links(&self, hall: &Hall<'_>) -> u64
        ensures { result ≤ 4294967295 * 64 }
    {
        let mut sum = 0;
        for pair in self.stops().windows(2) {
            sum += u64::from(hall.cost(pair[0], pair[1]));
        }
        sum
    }

    // The sum of the passing times of its stops but for the first and the last.
    fn between_ends(&self, hall: &Hall<'_>) -> u64
        ensures { result ≤ 4294967295 * 64 }
    {
        match self.stops() {
            [_, between @ .., _] => times(hall, between),
            _ => 0,
        }
    }

    // Its time: the sum of its links' costs and of the passing times of the stops strictly between its ends.
    pub fn time(&self, hall: &Hall<'_>) -> u64 {
        self.on_links(hall) + self.between_ends(hall)
    }

    // Whether a link leads from its last stop to v, and it does not stop at v.
    pub fn leads_to(&self, hall: &Hall<'_>, v: Stop) -> bool {
        hall.cost(self.last(), v) != 0 && !self.stops().contains(&v)
    }
}

// The sum of the passing times of these stops.
fn times(hall: &Hall<'_>, stops: &[Stop]) -> u64
    requires { length stops.now ≤ 64 }
    ensures { result ≤ 4294967295 * 64 }
{
    let mut sum = 0;
    for &v in stops {
        sum += u64::from(hall.passing_time(v));
    }
    sum
}
