// Makes a call, on the parts of tables by value that a hall has.
#![tactic(auto)]

ghost use Rattle.std.specs.Prelude.{◌≡◌};
ghost use Rattle.book.specs.Call.{image_check};
ghost use Rattle.calls.specs.Answers.{of_outcome};

use book::lent::LentMut;
use calls::answer::Answer;
use calls::call::{Act, Call};
use calls::lengths::{Odd, Table};
use calls::list::{List, numbers_of};
use calls::tables::{CELLS, STOPS, Tables};
use edits::edit::edit;
use flat_list::edit_flat;
use hall::audit::audit;
use hall::empty_hall::empty_hall;
use hall::work_out::work_out;
use image_form::image_check::image_check;
use images::image_read::image_read;
use images::image_write::image_write;
use moves::move_over;
use route_lists::list_routes;

// An image check, which takes no tables.
pub fn check(image: &[u8], n: u64) -> Answer
    ensures { result ≡ of_outcome (image_check n image.now) }
{
    Answer::from(image_check(image, n))
}

// A list of edits, lent as numbers.
fn edit_list(n: u64, list: List, t: &mut LentMut<'_>) -> Answer {
    let numbers = list.numbers();
    let length = numbers_of(list.edits().len());
    Answer::from(edit_flat(n, &numbers[..length], t))
}

// On lent tables. Work out and move over take some of them to be read, and an image check takes none.
fn on_lent(n: u64, act: Act, image: &[u8], buffer: &mut [u8], mut t: LentMut<'_>) -> Answer {
    match act {
        Act::EmptyHall => Answer::from(empty_hall(n, &mut t)),
        Act::WorkOut => {
            let LentMut {
                cost,
                passing,
                time,
                ways,
                share,
                score,
            } = t;
            Answer::from(work_out(n, cost, passing, time, ways, share, score))
        }
        Act::Audit => Answer::from(audit(n, &t.view())),
        Act::Edit(asked) => Answer::from(edit(n, asked, &mut t)),
        Act::EditList(list) => edit_list(n, list, &mut t),
        Act::ImageWrite => Answer::from(image_write(n, &t.view(), buffer)),
        Act::ImageRead => Answer::from(image_read(n, image, &mut t)),
        Act::MoveOver => {
            let LentMut {
                cost,
                passing,
                time,
                ways,
                share,
                score,
            } = t;
            Answer::from(move_over(n, cost, time, ways, share, score))
        }
        Act::ListRoutes { s, t: end } => Answer::from(list_routes(n, s, end, &t.view(), buffer)),
        Act::ImageCheck => check(image, n),
    }
}

// On the parts of the tables that are lent. The tables come one by one: the check does not cover parts of arrays behind one struct.
fn on_parts(
    call: Call,
    stops: u64,
    odd: Option<Odd>,
    image: &[u8],
    buffer: &mut [u8],
    cost: &mut [u32; CELLS],
    passing: &[u32; STOPS],
    time: &mut [u32; CELLS],
    ways: &mut [u32; CELLS],
    share: &mut [u64; CELLS],
    score: &mut [u64; STOPS],
) -> Answer {
    let lent = LentMut {
        cost: &mut cost[..Table::Cost.lent(stops, odd)],
        passing: &passing[..Table::Passing.lent(stops, odd)],
        time: &mut time[..Table::Time.lent(stops, odd)],
        ways: &mut ways[..Table::Ways.lent(stops, odd)],
        share: &mut share[..Table::Share.lent(stops, odd)],
        score: &mut score[..Table::Score.lent(stops, odd)],
    };
    on_lent(call.n, call.act, image, buffer, lent)
}

// On tables of a hall of so many stops, of which at most one is lent at an odd length. An image read and an image check take
// the image, an image write and a route list the buffer.
pub fn make(
    call: Call,
    stops: u64,
    odd: Option<Odd>,
    image: &[u8],
    buffer: &mut [u8],
    tables: &mut Tables,
) -> Answer {
    let Tables {
        cost,
        passing,
        time,
        ways,
        share,
        score,
    } = tables;
    on_parts(
        call, stops, odd, image, buffer, cost, passing, time, ways, share, score,
    )
}
