// The quickest routes to a stop as bytes: their number, and behind it each route, the number of its stops in front of them. What
// the buffer has no room for is left out. They come in the order of the walk, and none is the front of another, since the stop is
// their last one and on none of them twice.
ghost use Rattle.std.specs.Prelude.{◌≡◌, ◌<◌, ◌≤◌, length, drop};
ghost use Rattle.lister.specs.Wrote.{Wrote, WroteOn};

use crate::hall::{Hall, Stop};
use crate::route::Route;
use crate::walk::{Visit, walk};

// A list in its buffer: where its next byte goes, and the stop and the time of its routes.
#[derive(Drop)]
pub struct List<'a> {
    buffer: &'a mut [u8],
    at: usize,
    t: Stop,
    least: u64,
    ghost some: { 0 < at },
    ghost within: { at ≤ length buffer.now },
}

impl List<'_> {
    // Writes a byte.
    fn put(&mut self, x: u8)
        ensures { WroteOn self.old.at self.new.at self.old.buffer self.new.buffer }
    {
        if self.at < self.buffer.len() {
            self.buffer[self.at] = x;
            self.at += 1;
        }
    }

    // Counts a route in the first byte.
    fn count(&mut self)
        ensures wrote { WroteOn self.old.at self.new.at self.old.buffer self.new.buffer }
        ensures first { drop 1 self.new.buffer.now ≡ drop 1 self.old.buffer.now }
    {
        self.buffer[0] = self.buffer[0].saturating_add(1);
    }

    // Counts a route, and writes it.
    fn put_route(&mut self, route: &Route)
        ensures { WroteOn self.old.at self.new.at self.old.buffer self.new.buffer }
    {
        self.count();
        self.put(route.stops().len() as u8);
        for v in route.stops() {
            self.put(v.number() as u8);
        }
    }
}

// The route is written if it ends at the stop and takes the time.
impl Visit for List<'_> {
    ghost use Rattle.lister.specs.Wrote.{WroteOn, stays_on, goes_on};

    ghost Becomes = { λ l m. WroteOn l.at m.at l.buffer m.buffer };

    ghost stays = { λ l. stays_on l.at l.buffer l.within };

    ghost goes_on = { λ l m n. goes_on };

    fn visit(&mut self, hall: &Hall<'_>, route: &Route) {
        if route.last() == self.t && route.time(hall) == self.least {
            self.put_route(route);
        }
    }
}

// Writes those of the routes from s that lead to t in this time, behind the byte of their number.
pub fn put_routes(hall: &Hall<'_>, s: Stop, t: Stop, least: u64, buffer: &mut [u8]) -> usize
    requires { 0 < length buffer.old }
    ensures { Wrote 1 result buffer.old buffer.new }
{
    let mut list = List {
        buffer,
        at: 1,
        t,
        least,
    };
    walk(hall, &mut Route::new(s), &mut list);
    list.at
}
