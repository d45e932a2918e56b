// The walk over every route from a stop.
ghost use Rattle.std.specs.Prelude.{◌≡◌};

use crate::hall::{Hall, Stop};
use crate::route::Route;

// What is done at each route of a walk.
pub trait Visit {
    // What one visit or several, one behind the other, may make of it.
    ghost Becomes: { Self → Self → Type 0 };

    fn visit(&mut self, hall: &Hall<'_>, route: &Route)
        ensures { Becomes self.old self.new };

    ghost stays: { (x : Self) → Becomes x x };

    ghost goes_on: { (x y z : Self) → Becomes x y → Becomes y z → Becomes x z };
}

// Visits the route in hand and, depth first, every longer one that begins with it: it goes on over each link to a stop that is not
// on the route. The next stops rise, so that the routes come in order of their stops, compared from the front: where two part, the
// one with the smaller stop comes first.
pub fn walk<V: Visit>(hall: &Hall<'_>, route: &mut Route, visits: &mut V)
    ensures route { route.new.stops.items ≡ route.old.stops.items }
    ensures visits { V.Becomes visits.old visits.new }
{
    visits.visit(hall, route);
    if !route.has_room() {
        return;
    }
    // Over stops, by number, since they rise.
    for v in 0..hall.n {
        let v = Stop::new(v);
        if route.leads_to(hall, v) {
            route.push(v);
            walk(hall, route, visits);
            route.pop();
        }
    }
}
