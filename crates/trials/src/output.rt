// What the calls that write are to write: an image, or a list of routes, which the lister gives.
ghost use Rattle.std.specs.Prelude.{length};
ghost use Rattle.std.specs.Iterator.{at_most};

use super::buffer::Buffer;
use super::image;
use super::pair::Pair;
use super::small_hall::Hall;
use calls::call::Act;

// The list of the quickest routes between two stops, in front of the bytes that a buffer has.
fn quickest(hall: &Hall, ends: Pair, buffer: &Buffer) -> Buffer {
    let costs = &hall.costs;
    let passing = &hall.passing;
    let mut list = *buffer;
    list.length = lister::routes(
        &costs.table,
        &passing.times,
        costs.stops,
        ends.u,
        ends.v,
        &mut list.bytes,
    );
    list
}

// What a call writes in a hall, in front of the bytes that a buffer has.
pub fn written(act: &Act, hall: &Hall, buffer: &Buffer) -> Buffer {
    match act {
        Act::ListRoutes { s, t } => quickest(hall, Pair::new(*s, *t), buffer),
        _ => image::written(&hall.costs, buffer),
    }
}

// The routes of a list, behind the byte of their number: each is the number of its stops, and its stops.
#[derive(Drop)]
pub struct Routes<'a>(&'a [u8]);

impl<'a> Routes<'a> {
    pub fn of(list: &'a Buffer) -> Self {
        Routes(&list.bytes[1..])
    }
}

impl<'a> Iterator for Routes<'a> {
    type Item = &'a [u8];

    ghost remaining = { λ s. at_most (length s.0.now) };

    fn next(&mut self) -> Option<&'a [u8]> {
        let (count, others) = self.0.split_first()?;
        let (route, behind) = others.split_at_checked(*count as usize)?;
        self.0 = behind;
        Some(route)
    }
}

// How many routes a list has.
pub fn number(list: &Buffer) -> u8 {
    list.byte(0)
}

// Whether the routes of a list have different lengths.
pub fn is_uneven(list: &Buffer) -> bool {
    let first = list.byte(1) as usize;
    Routes::of(list)
        .take(number(list) as usize)
        .any(|route| route.len() != first)
}
