// Comparisons: each counts the entries that differ.
ghost use Rattle.std.specs.Prelude.{◌≡◌, not, take, zip, count_by};

// Of the first entries of two tables.
pub fn unlike<T: PartialEq>(a: &[T], b: &[T], count: usize) -> u64
    ensures { result ≡ count_by (λ pair. not (T.eq pair.0 pair.1)) (take count (zip a.now b.now)) }
{
    a.iter().zip(b).take(count).filter(|(x, y)| x != y).count() as u64
}

pub fn sum(counts: &[u64]) -> u64 {
    counts.iter().fold(0, |sum, x| sum.wrapping_add(*x))
}
