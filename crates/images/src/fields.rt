// Stores numbers in bytes, low byte first.
ghost use Rattle.std.specs.Prelude.{◌≡◌, ◌∷◌, ◌+◌, ◌≤◌, length};
ghost use Rattle.std.proofs.lemmas.List.Edits.{sets};
ghost use Rattle.book.specs.Hall.{low_first};

// Stores a number in four bytes.
pub fn put_four(x: u32, at: usize, bytes: &mut [u8])
    requires { at + 4 ≤ length bytes.old }
    ensures { bytes.new ≡ sets bytes.old at (low_first 4 x) }
{
    bytes[at..at + 4].copy_from_slice(&x.to_le_bytes());
}

// Stores two bytes and a number in two: a link record, and the first half of a trailer.
pub fn put_record(a: u8, b: u8, x: u16, at: usize, bytes: &mut [u8])
    requires { at + 4 ≤ length bytes.old }
    ensures { bytes.new ≡ sets bytes.old at (a ∷ b ∷ low_first 2 x) }
{
    let [low, high] = x.to_le_bytes();
    bytes[at..at + 4].copy_from_slice(&[a, b, low, high]);
}
