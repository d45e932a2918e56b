// Another cost for one link of right tables: the touched rows worked out.
#![tactic(auto)]

ghost use Rattle.std.specs.Prelude.{◌≡◌, true, false, ℕ, ◌+◌, ◌*◌, ◌<◌, length, set as put};
ghost use Rattle.routes.specs.Route.{has};
ghost use Rattle.book.specs.Hall.{entry, valid_costs, valid_passing};
ghost use Rattle.book.specs.Call.{with_cost};
ghost use Rattle.book.specs.Contract.{found_layout, held, SameLoans};
ghost use Rattle.tables.specs.Promise.{Square, Worked};
ghost use Rattle.touch.specs.Promise.{one_link, Found};
ghost use Rattle.changes.specs.Promise.{Change, Reworked};

use book::lent::LentMut;
use cells::places;
use links::measure::Measure;
use links::network::Network;
use tables::rows;
use touch::link::Link;

// Works the rows of a set out in place, over all links or over the useful ones and the edited link. The tables come as slices: behind the
// struct the check does not cover a network over one of them while others are lent.
fn rework(
    measure: Measure,
    link: Link,
    all: bool,
    set: u64,
    cost: &[u32],
    passing: &[u32],
    time: &mut [u32],
    ways: &mut [u32],
    share: &mut [u64],
)
    requires costs { (length cost.now ≡ link.n * link.n) × (valid_costs link.n cost.now ≡ true) }
    requires passing { (length passing.now ≡ link.n) × (valid_passing link.n passing.now ≡ true) }
    requires square { Square link.n time.old ways.old share.old }
    requires linked { all ≡ false → 0 < entry link.n cost.now link.u link.v }
    requires by_index { (s : ℕ) → has set s ≡ true → s < link.n }
    ensures { Reworked measure.limit measure.scale link.n (one_link link.u link.v) all set (found_layout cost.now passing.now) time.old ways.old share.old time.new ways.new share.new }
{
    let mut out = [0u64; 64];
    touch::choose_links(link, all, cost, time, &mut out);
    let network = Network {
        n: link.n,
        cost,
        passing,
        out: &out,
    };
    rows::fill_rows(network, measure, set, time, ways, share);
}

// Gives a link its new cost and works the touched rows out. Its callers prove the tables right and the set that of the touched sources.
pub fn set_cost(measure: Measure, link: Link, new: u32, touched: u64, t: &mut LentMut<'_>)
    requires change { Change measure.limit measure.scale link.n link.u link.v new (held t.old).layout (held t.old).time (held t.old).ways (held t.old).share }
    requires found { Found link.n link.u link.v new t.old.cost.now t.old.passing.now t.old.time.now touched }
    ensures loans { SameLoans t.old t.new }
    ensures worked { Worked measure.limit measure.scale link.n (with_cost link.n link.u link.v new (held t.old).layout) t.new.time.now t.new.ways.now t.new.share.now }
    ensures cost { t.new.cost.now ≡ put t.old.cost.now (link.u * link.n + link.v) new }
    ensures rest { (t.new.passing.now ≡ t.old.passing.now) × (t.new.score.now ≡ t.old.score.now) }
{
    let at = places::start(link.n, link.u) + link.v;
    let old = t.cost[at];
    t.cost[at] = new;
    let up = touch::dearer(old, new);
    let passing = t.passing;
    // Lent to be written, since the check does not cover reading one table while others are lent.
    let cost = &mut *t.cost;
    rework(
        measure, link, up, touched, cost, passing, t.time, t.ways, t.share,
    );
}
