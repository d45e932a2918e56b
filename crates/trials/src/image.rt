// Images, written and read apart from the hall.
ghost use Rattle.std.specs.Prelude.{◌≤◌};

use super::buffer::{BYTES, Buffer};
use super::costs::Costs;
use super::pair::Pair;

// Writes two bytes and a number of two.
fn push_record(image: &mut Buffer, a: u64, b: u64, c: u64) {
    image.push(a);
    image.push(b);
    image.push(c);
    image.push(c / 256);
}

// The image of a cost table, in front of the bytes that a buffer has.
pub fn written(costs: &Costs, buffer: &Buffer) -> Buffer {
    let mut image = buffer.of_length(0);
    for pair in costs.pairs() {
        let cost = costs.at(pair);
        if cost != 0 {
            push_record(&mut image, pair.u, pair.v, cost);
        }
    }
    let distance = image.length as u64;
    push_record(&mut image, costs.stops, 1, distance / 4);
    push_record(&mut image, distance, distance / 256, 0);
    image
}

// How many records stand in front of the trailer.
fn records(length: usize) -> usize
    ensures { result ≤ 48 }
{
    if length < 8 || BYTES < length {
        return 0;
    }
    (length - 8) / 4
}

// The costs of the links that an image has.
pub fn read(stops: u64, image: &Buffer) -> Costs {
    let mut costs = Costs::none(stops);
    for record in image.bytes.chunks_exact(4).take(records(image.length)) {
        if let [u, v, low, high] = record {
            let pair = Pair::new(u64::from(*u), u64::from(*v));
            if !pair.is_same_stop() {
                costs.put(pair, u64::from(u16::from_le_bytes([*low, *high])));
            }
        }
    }
    costs
}

// Whether the bytes are an image of a hall of n stops: then its links, written anew, give the bytes
// again, since a hall has one image.
pub fn is_valid(n: u64, image: &Buffer) -> bool {
    let again = written(&read(n, image), image);
    again.length == image.length && again.lent() == image.lent()
}
