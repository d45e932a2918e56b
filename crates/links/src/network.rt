// A hall as the work on rows sees it.
ghost use Rattle.links.specs.Work.{Linked};

// Its number of stops, its cost table, its passing times, and masks of links: bit t of out[u] where the link u to t counts. To pass
// the stop u, strictly between its ends, a route takes passing[u].
#[derive(Clone, Copy)]
pub struct Network<'a> {
    pub n: usize,
    pub cost: &'a [u32],
    pub passing: &'a [u32],
    pub out: &'a [u64; 64],
    pub ghost linked: { Linked n cost.now passing.now out.now },
}
