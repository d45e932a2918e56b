// hallscore's text in and text out.
#![tactic(auto)]

use book::lent::LentMut;
use book::limits::Hall;
use print::Output;
use words::read;
use words::read::Lines;

mod run;

ghost use Rattle.std.specs.Prelude.{◌≡◌, ◌≤◌, true, length, ◌++◌};
ghost use Rattle.book.specs.Hall.{most_stops, up_to};
ghost use Rattle.words.specs.Text.{longest, lines, hall_line, empty_book, report, listing};
ghost use Rattle.print.specs.Promise.{Prints};
ghost use Rattle.listing.specs.Promise.{room, Ready, wrote};

// The longest text that is read, and room for the listing of any text: specs/Promise.antt says where it comes from.
pub const LONGEST: usize = 32768;

pub const ROOM: usize = 430000;

// They are those of the definitions.
pub fn bounds_agree()
    ensures text { LONGEST ≡ longest }
    ensures output { ROOM ≡ room }
{}

// The listing of a text behind its first line, which asks for a hall of n stops.
fn hall(n: u64, rest: Lines<'_>, out: &mut Output<'_>)
    requires n_value { up_to most_stops n ≡ true }
    requires ready { Ready (lines rest.text.now) out.old }
    requires front { out.old.written ≡ 0 }
    ensures { Prints (hall_line n ++ report 2 (empty_book n) (lines rest.entry.text.now)) out.old out.new }
{
    let mut cost = [0u32; Hall::CELLS];
    let passing = [0u32; Hall::STOPS];
    let mut time = [0u32; Hall::CELLS];
    let mut ways = [0u32; Hall::CELLS];
    let mut share = [0u64; Hall::CELLS];
    let mut score = [0u64; Hall::STOPS];
    let k = n as usize;
    let cells = k * k;
    let mut tables = LentMut {
        cost: &mut cost[..cells],
        passing: &passing[..k],
        time: &mut time[..cells],
        ways: &mut ways[..cells],
        share: &mut share[..cells],
        score: &mut score[..k],
    };
    out.hall_line(n);
    run::start(n, rest, out, &mut tables);
}

// The listing of a text, in an output that has room for it.
fn print_listing(input: &[u8], out: &mut Output<'_>)
    requires room { room ≤ length out.old.out.now }
    requires front { out.old.written ≡ 0 }
    ensures { Prints (listing input.now) out.old out.new }
{
    if input.len() > LONGEST {
        out.put(b"too long\n");
        return;
    }
    let mut rest = Lines { text: input };
    match rest.next().and_then(read::hall_of) {
        Some(n) if Hall::takes(n) => hall(n, rest, out),
        _ => out.put(b"no hall\n"),
    }
}

// The listing of a text, from the front of the output, and its length. An output that is too short for some text is left as it is.
pub fn list(input: &[u8], output: &mut [u8]) -> Option<usize>
    ensures { (result, output.new) ≡ wrote input.now output.old }
{
    if output.len() < ROOM {
        return None;
    }
    let mut out = Output {
        out: output,
        written: 0,
    };
    print_listing(input, &mut out);
    Some(out.written)
}
