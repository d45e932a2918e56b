// By what numbers ways and shares are kept.
ghost use Rattle.links.specs.Work.{Measured};

// The most ways of a pair that is not crowded, and what a whole share counts.
#[derive(Clone, Copy)]
pub struct Measure {
    pub limit: u32,
    pub scale: u64,
    pub ghost measured: { Measured limit scale },
}
