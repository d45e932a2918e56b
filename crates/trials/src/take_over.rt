// Entries that one table takes over from another.
use calls::entries::narrow;

// The first ones.
pub fn take_over<T: Copy>(from: &[T], count: usize, table: &mut [T]) {
    for (entry, x) in table.iter_mut().zip(from).take(count) {
        *entry = *x;
    }
}

// The first ones of a list of 64 bits, to a table of 32: each is cut to its width on the way.
pub fn take_narrowed(from: &[u64], count: usize, table: &mut [u32]) {
    for (entry, x) in table.iter_mut().zip(from).take(count) {
        *entry = narrow(*x);
    }
}
