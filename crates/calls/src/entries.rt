// Entries of a table, also where it has none.
ghost use Rattle.std.specs.Prelude.{◌≡◌, ℕ, ◌<◌, ◌≤◌, length, min, slice_get, slice_set};
ghost use Rattle.calls.specs.Places.{place_of};

use super::tables::place;

// A number that needs more than 32 bits counts as the largest that does not.
pub fn narrow(x: u64) -> u32
    ensures { result ≡ min x 4294967295 }
{
    u32::try_from(x).unwrap_or(u32::MAX)
}

// An entry, 0 behind a table's end.
pub fn at<T: Copy + Into<u64>>(table: &[T], i: usize) -> u64
    ensures within { (x : T) → slice_get table.now i ≡ Some x → T.converts x result }
    ensures behind { length table.now ≤ i → result ≡ 0 }
{
    table.get(i).map_or(0, |x| (*x).into())
}

// Sets an entry; behind a table's end nothing. By index, since `get_mut` does not say what the table is afterwards.
pub fn put<T: Copy>(table: &mut [T], i: usize, x: T)
    ensures { table.new ≡ slice_set table.old i x }
{
    if i < table.len() {
        table[i] = x;
    }
}

// The entry of a table for u and v, 0 where there is none.
pub fn between<T: Copy + Into<u64>>(table: &[T], n: u64, u: u64, v: u64) -> u64
    ensures within { (i : ℕ) (x : T) → place_of n u v ≡ Some i → slice_get table.now i ≡ Some x → T.converts x result }
    ensures behind { (i : ℕ) → place_of n u v ≡ Some i → length table.now ≤ i → result ≡ 0 }
    ensures nowhere { place_of n u v ≡ None → result ≡ 0 }
{
    place(n, u, v).map_or(0, |i| at(table, i))
}
