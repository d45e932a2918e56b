// Sequences of calls at random on halls of one to seven stops, from an empty hall or a moved one. Each
// answer, each table and each buffer is held against a book of links and passing times, the documents'
// rules of refusal and the slow lister.
#![tactic(auto)]

mod ask;
mod bad_edit;
mod buffer;
mod chance;
mod choose;
mod compare;
mod costs;
mod count;
mod crowds;
mod draft;
mod edit;
mod ends;
mod ground;
mod hall_book;
mod image;
mod in_turn;
mod lent;
mod lines;
mod model;
mod moving;
mod new_costs;
mod old;
mod outcome;
mod output;
mod pair;
mod passed;
mod passing;
mod price;
mod refused;
mod run;
mod small_hall;
mod spoil;
mod take_over;
mod tally;
mod trial;

use run::Run;
use std::io;

const SEQUENCES: u64 = 1500;

fn main(rt: HostRuntime) -> io::Result<()> {
    let mut run = Run::new(20011);
    for _ in 0..SEQUENCES {
        run.sequence();
    }
    let tally = &run.tally;
    print!(rt; "{tally}")
}
