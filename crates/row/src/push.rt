// The shares of a row, from far stops to near ones.
ghost use Rattle.std.specs.Prelude.{◌≡◌, ◌<◌, length};
ghost use Rattle.routes.specs.Equations.{quotient};
ghost use Rattle.row.specs.Paid.{Adds, Added, Waits, Paid};

use links::measure::Measure;
use links::sets::Stops;

// Adds up the shares of the stops of an order. While a stop waits, its share holds what flows back to it.
pub fn accumulate(measure: Measure, ways: &[u32], pred: &[u64], order: &[usize], share: &mut [u64])
    requires { Waits (length order.now) measure.scale measure.limit ways.now pred.now order.now share.old }
    ensures { Paid (length order.now) measure.scale measure.limit ways.now pred.now order.now share.new }
{
    for &v in order.iter().rev() {
        let w = ways[v];
        let flow = share[v];
        let psi = quotient(measure, w) + flow;
        push(pred[v], psi, share);
        share[v] = u64::from(w) * flow;
    }
}

// Adds psi at each stop of a set.
fn push(to: u64, psi: u64, share: &mut [u64])
    requires { Adds to psi share.old }
    ensures { Added to psi share.old share.new }
{
    for u in Stops(to) {
        share[u] += psi;
    }
}

// What a stop of w ways itself adds: nothing where it is crowded.
fn quotient(measure: Measure, w: u32) -> u64
    requires { 0 < w }
    ensures { result ≡ quotient measure.limit measure.scale w }
{
    if measure.limit < w {
        return 0;
    }
    if w == 1 {
        return measure.scale;
    }
    measure.scale / u64::from(w)
}
