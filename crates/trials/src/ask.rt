// A call with what it is lent.
use super::buffer::Buffer;
use super::costs::Costs;
use super::passing::Passing;
use calls::call::{Act, Call};
use calls::lengths::Odd;

// A call, the table that it lends at an odd length, the cost table of a work out, the passing times where the call brings them,
// and the image or the buffer.
#[derive(Clone, Copy)]
pub struct Ask {
    pub call: Call,
    pub odd: Option<Odd>,
    pub costs: Option<Costs>,
    pub passing: Option<Passing>,
    pub buffer: Buffer,
}

impl Ask {
    // A call that brings nothing but maybe passing times.
    pub fn plain(act: Act, n: u64, passing: Option<Passing>) -> Self {
        Ask {
            call: Call { n, act },
            odd: None,
            costs: None,
            passing,
            buffer: Buffer::empty(),
        }
    }
}
