// Two stops of a hall, with what the walk between them reads.
ghost use Rattle.route_walk.specs.Promise.{Ready};

// The number of stops, the first stop s and the last stop t, and the costs, the passing times and the times of the hall.
#[derive(Clone, Copy)]
pub struct Trip<'a> {
    pub n: usize,
    pub s: usize,
    pub t: usize,
    pub cost: &'a [u32],
    pub passing: &'a [u32],
    pub time: &'a [u32],
    pub ghost ready: { Ready n s t cost.now passing.now time.now },
}
