// The choice of the bytes that a call is lent: an image to read, or a buffer to write.
use super::buffer::Buffer;
use super::chance::Chance;
use super::choose::to_be_even;
use super::costs::Costs;
use super::image;
use super::new_costs::new_costs;
use super::output::written;
use super::small_hall::Hall;
use calls::call::Act;

// Bytes of any content.
fn filled(chance: &mut Chance) -> Buffer {
    let mut buffer = Buffer::empty();
    for byte in buffer.bytes.iter_mut() {
        *byte = chance.draw(256) as u8;
    }
    buffer
}

// Other bytes in one place of an image, or another length. Each case draws what it needs, in this order.
fn damaged(chance: &mut Chance, image: &Buffer) -> Buffer {
    let mut next = *image;
    let x = chance.draw(6);
    let i = chance.draw(image.length as u64) as usize;
    let byte = u64::from(image.byte(i));
    match x {
        0 => next.put(i, chance.draw(256)),
        1 => next.put(i, byte + 1),
        2 => next.put(i, byte + 255),
        3 => swap_records(&mut next),
        _ => next.length = other_length(chance, image.length),
    }
    next
}

// The first two records change places.
fn swap_records(image: &mut Buffer) {
    image.bytes[..8].rotate_left(4);
}

// The length of an image that is cut, or has bytes more.
fn other_length(chance: &mut Chance, length: usize) -> usize {
    let difference = 1 + chance.draw(9) as usize;
    if chance.once_in(3) && length < 190 {
        return length + difference;
    }
    length.checked_sub(difference).unwrap_or(length)
}

// The costs of the present hall, or those of a new one with its passing times.
fn held_or_new(chance: &mut Chance, hall: &Hall) -> Costs {
    if chance.once_in(2) {
        return hall.costs;
    }
    let even = to_be_even(chance, hall.stops());
    let costs = new_costs(chance, hall.stops(), even);
    hall.passing.matched(chance, costs)
}

// An image to read or check: of the present hall or a new one, often damaged.
fn some_image(chance: &mut Chance, hall: &Hall) -> Buffer {
    let bytes = filled(chance);
    let image = image::written(&held_or_new(chance, hall), &bytes);
    if chance.once_in(2) {
        return image;
    }
    damaged(chance, &image)
}

// How long to make a buffer for so many bytes: as long, longer, one byte shorter, empty, or of any length.
fn room(chance: &mut Chance, length: usize) -> usize {
    match chance.draw(8) {
        0 => 0,
        1 | 2 => length.saturating_sub(1),
        3 | 4 => length.wrapping_add(1 + chance.draw(9) as usize),
        5 => chance.draw(201) as usize,
        _ => length,
    }
}

// A buffer for what a call writes.
fn some_buffer(chance: &mut Chance, act: &Act, hall: &Hall) -> Buffer {
    let mut buffer = filled(chance);
    let output = written(act, hall, &buffer);
    buffer.length = room(chance, output.length);
    buffer
}

// The bytes of a call on a hall.
pub fn bytes(chance: &mut Chance, act: &Act, hall: &Hall) -> Buffer {
    match act {
        Act::ImageRead | Act::ImageCheck => some_image(chance, hall),
        Act::ImageWrite | Act::ListRoutes { .. } => some_buffer(chance, act, hall),
        _ => Buffer::empty(),
    }
}
