// Runs the hall calls on the known halls of document 01 that no theorem covers, holds what they answer
// and leave against the slow lister, and writes both.
#![tactic(auto)]

mod change;
mod crowded;
mod line;
mod listed;
mod lists;
mod moved;
mod passing;
mod quickest;
mod report;
mod sizes;
mod smallest;
mod stops;
mod sums;
mod text;
mod ways;

use std::io;

fn main(rt: HostRuntime) -> io::Result<()> {
    ways::most(&rt)?;
    ways::one_more(&rt)?;
    ways::beside_a_link(&rt)?;
    ways::worn_link(&rt)?;
    sums::none_in_16_bits(&rt)?;
    sums::right_in_16_bits(&rt)?;
    crowded::looks_the_same(&rt)?;
    crowded::not_right(&rt)?;
    crowded::routes(&rt)?;
    crowded::image(&rt)?;
    line::longest(&rt)?;
    lists::shift_change(&rt)?;
    lists::most_edits(&rt)?;
    lists::in_passing(&rt)?;
    moved::most(&rt)?;
    moved::too_many(&rt)?;
    moved::none_between(&rt)?;
    quickest::two_ways(&rt)?;
    quickest::longest(&rt)?;
    passing::longest(&rt)?;
    passing::ways_made(&rt)?;
    passing::ways_unmade(&rt)?;
    passing::too_large(&rt)?;
    sizes::too_large(&rt)?;
    smallest::no_links(&rt)
}
