// The lines of a text, one after another, on the tables of a hall.
ghost use Rattle.std.specs.Prelude.{◌≡◌, ◌+◌, ◌*◌, ◌≤◌, length, get_or};
ghost use Rattle.routes.specs.Route.{join_to};
ghost use Rattle.book.specs.Hall.{most_stops, no_passing};
ghost use Rattle.book.specs.Contract.{held, Inside, Audited};
ghost use Rattle.words.specs.Text.{lines, words, line_of, stop_line, empty_book, report};
ghost use Rattle.print.specs.Promise.{stop_bytes, Prints};
ghost use Rattle.listing.specs.Promise.{book_of, Room, Stepped, Ready};

use book::lent::LentMut;
use edits::audited::edit_audited;
use hall::empty_hall::empty_hall;
use print::Output;
use words::read;
use words::read::Lines;

// Line i of the text.
fn step(i: u64, line: &[u8], n: u64, out: &mut Output<'_>, tables: &mut LentMut<'_>)
    requires audited { Audited n (held tables.old) }
    requires room { Room i out.old }
    ensures { Stepped n i (line_of (words line.now)) (held tables.old) (held tables.new) out.old out.new }
{
    match read::line_of(line) {
        None => out.unread_line(i),
        Some(edit) => out.edit_line(i, edit_audited(n, edit, tables)),
    }
}

// The scores, a line for each stop.
fn scores(score: &[u64], out: &mut Output<'_>)
    requires { (length score.now ≤ most_stops) × (out.old.written + stop_bytes * length score.now ≤ length out.old.out.now) }
    ensures { Prints (join_to (length score.now) (λ v. stop_line v (get_or score.now v 0))) out.old out.new }
{
    for (v, x) in score.iter().enumerate() {
        out.stop_line(v as u64, *x);
    }
}

// The lines behind the first one, and then the scores.
fn run(n: u64, rest: Lines<'_>, out: &mut Output<'_>, tables: &mut LentMut<'_>)
    requires audited { Audited n (held tables.old) }
    requires ready { Ready (lines rest.text.now) out.old }
    ensures { Prints (report 2 (book_of n (held tables.old)) (lines rest.entry.text.now)) out.old out.new }
{
    for (i, line) in rest.enumerate() {
        step(i as u64 + 2, line, n, out, tables);
    }
    scores(tables.score, out);
}

// The same on tables of any content beside passing times of 0, from an empty hall on.
pub fn start(n: u64, rest: Lines<'_>, out: &mut Output<'_>, tables: &mut LentMut<'_>)
    requires inside { Inside n (held tables.old) × (tables.old.passing.now ≡ no_passing n) }
    requires ready { Ready (lines rest.text.now) out.old }
    ensures { Prints (report 2 (empty_book n) (lines rest.entry.text.now)) out.old out.new }
{
    let _ = empty_hall(n, tables);
    run(n, rest, out, tables);
}
