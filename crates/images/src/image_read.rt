// Image read: the tables of the hall that an image holds.
ghost use Rattle.std.specs.Prelude.{◌≡◌, true, ◌*◌, ◌≤◌, length, replicate};
ghost use Rattle.book.specs.Hall.{is_image, costs_of};
ghost use Rattle.book.specs.Call.{image_read, Done};
ghost use Rattle.book.specs.Contract.{held, SameLoans, of_refusal, Inside};

use book::Refusal;
use book::lent::LentMut;
use cells::{places, scores};
use hall::door::door;
use image_form::{fields, image_check};
use tables::fill_all::fill_all;
use tables::measures;

// Sets the costs of an image's links in a table without links, record by record: the definition of the costs counts records too.
fn read_costs(n: usize, image: &[u8], cost: &mut [u32])
    requires { (n ≤ 64) × (is_image n image.now ≡ true) × (cost.old ≡ replicate (n * n) 0) }
    ensures { cost.new ≡ costs_of n image.now }
{
    let links = (image.len() - 8) / 4;
    for i in 0..links {
        let at = 4 * i;
        let from = fields::u8_at(image, at);
        let to = fields::u8_at(image, at + 1);
        let place = places::start(n, from) + to;
        cost[place] = fields::u16_at(image, at + 2) as u32;
    }
}

// Image read behind the door: test 9, and the tables.
fn read_tables(n: usize, image: &[u8], t: &mut LentMut<'_>) -> Result<(), Refusal>
    requires { Inside n (held t.old) }
    ensures loans { SameLoans t.old t.new }
    ensures done { Done (record { n = n; ask = image_read image.now t.old.passing.now }) (held t.old) (held t.new) (of_refusal result) }
{
    if !image_check::is_image(n, image) {
        return Err(Refusal::BadImage);
    }
    let passing = t.passing;
    let cost = &mut *t.cost;
    let share = &mut *t.share;
    cost.fill(0);
    read_costs(n, image, cost);
    fill_all(measures::present(), n, cost, passing, t.time, t.ways, share);
    scores::sum_scores(n, share, t.score);
    Ok(())
}

pub fn image_read(n: u64, image: &[u8], t: &mut LentMut<'_>) -> Result<(), Refusal>
    ensures loans { SameLoans t.old t.new }
    ensures done { Done (record { n = n; ask = image_read image.now t.old.passing.now }) (held t.old) (held t.new) (of_refusal result) }
{
    door(n, &t.view())?;
    read_tables(n as usize, image, t)
}
