// The link of an edit, which may be there or not.
ghost use Rattle.std.specs.Prelude.{◌*◌, ◌<◌, ◌≤◌};

// From the stop u to the stop v of a hall of n stops.
#[derive(Clone, Copy)]
pub struct Link {
    pub n: usize,
    pub u: usize,
    pub v: usize,
    pub ghost inside: { (n ≤ 64) × (u < n) × (v < n) },
}
