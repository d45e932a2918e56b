// An edit of tables that were audited.
ghost use Rattle.std.specs.Prelude.{◌≡◌, Ok, length};
ghost use Rattle.book.specs.Hall.{most_ways, scale};
ghost use Rattle.book.specs.Call.{edit, Done};
ghost use Rattle.book.specs.Contract.{held, SameLoans, of_edit, Audited};
ghost use Rattle.changes.specs.Promise.{Change, Applied};

use book::lent::LentMut;
use book::{Edit, Edited, Refusal};
use cells::{places, scores};
use tables::measures;
use touch::link::Link;

// Applies an edit to right tables: a link gets another cost, or none.
fn apply(link: Link, new: u32, t: &mut LentMut<'_>) -> Edited
    requires change { Change most_ways scale link.n link.u link.v new (held t.old).layout (held t.old).time (held t.old).ways (held t.old).share }
    requires score_len { length t.old.score.now ≡ link.n }
    ensures loans { SameLoans t.old t.new }
    ensures applied { Applied most_ways scale link.n link.u link.v new (held t.old) (held t.new) (of_edit (Ok result)) }
{
    let found = t.view();
    let before = places::read_entry(link.n, link.u, link.v, found.cost);
    let touched = touch::touched_set(link, new, &found);
    rework::set_cost(measures::present(), link, new, touched, t);
    let share = &mut *t.share;
    scores::sum_scores(link.n, share, t.score);
    Edited {
        touched,
        rows: touched.count_ones(),
        before,
    }
}

// An edit of right tables, as an audit shows them to be.
pub fn edit_audited(n: u64, e: Edit, t: &mut LentMut<'_>) -> Result<Edited, Refusal>
    requires { Audited n (held t.old) }
    ensures loans { SameLoans t.old t.new }
    ensures done { Done (record { n = n; ask = edit e }) (held t.old) (held t.new) (of_edit result) }
{
    permit::permit(n, e, t.view().cost)?;
    let link = Link {
        n: n as usize,
        u: e.u as usize,
        v: e.v as usize,
    };
    Ok(apply(link, permit::cost_set(e), t))
}
