// Which sources an edit touches, by one comparison a source on the times before it, and which links their rows need.
#![tactic(auto)]

pub mod link;

ghost use Rattle.std.specs.Prelude.{◌≡◌, false, ◌*◌, ◌<◌, ◌≤◌, length};
ghost use Rattle.book.specs.Hall.{entry};
ghost use Rattle.touch.specs.Promise.{rises, crosses, one_link, Found, Chosen};

use book::lent::Lent;
use book::limits::Hall;
use cells::places;
use link::Link;
use links::masks::{all_links, useful_links};
use links::{numbers, sets};

// Whether a link goes or its cost rises, not comes or falls.
pub fn dearer(old: u32, new: u32) -> bool
    ensures { result ≡ rises old new }
{
    new == 0 || (0 < old && old < new)
}

// Whether a quickest route crosses a link from a stop at time near, which it takes `stay` to pass, to one at time far.
fn link_crosses(up: bool, old: u32, new: u32, near: u32, stay: u32, far: u32) -> bool
    ensures { result ≡ crosses up old new near stay far }
{
    if near == Hall::MARK {
        return false;
    }
    let passed = u64::from(near) + u64::from(stay);
    if up {
        passed + u64::from(old) == u64::from(far)
    } else {
        passed + u64::from(new) <= u64::from(far)
    }
}

// The set of touched sources where a link gets another cost. Its callers prove that the tables have their lengths. The loop goes over
// sources by number: s is the row, the start of the route and the bit.
pub fn touched_set(link: Link, new: u32, t: &Lent<'_>) -> u64
    requires { (length t.now.cost.now ≡ link.n * link.n) × (length t.now.passing.now ≡ link.n) × (length t.now.time.now ≡ link.n * link.n) }
    ensures { Found link.n link.u link.v new t.now.cost.now t.now.passing.now t.now.time.now result }
{
    let Link { n, u, v } = link;
    let old = places::read_entry(n, u, v, t.cost);
    let up = dearer(old, new);
    let mut set = 0;
    for s in 0..n {
        let near = places::read_entry(n, s, u, t.time);
        let far = places::read_entry(n, s, v, t.time);
        let stay = numbers::stay(s, u, t.passing);
        let source = sets::only(s);
        if link_crosses(up, old, new, near, stay, far) {
            set |= source;
        }
    }
    set
}

// All links, or those that cost the time between their ends and the edited link. Its callers prove that the tables have their lengths, and
// that there is such a link where not all are asked for.
pub fn choose_links(link: Link, all: bool, cost: &[u32], time: &[u32], out: &mut [u64; 64])
    requires n_bound { (length cost.now ≡ link.n * link.n) × (length time.now ≡ link.n * link.n) }
    requires v_nonzero { all ≡ false → 0 < entry link.n cost.now link.u link.v }
    ensures { Chosen link.n (one_link link.u link.v) all cost.now time.now out.new }
{
    if all {
        all_links(link.n, cost, out);
    } else {
        useful_links(link.n, cost, time, out);
        out[link.u] |= sets::only(link.v);
    }
}
