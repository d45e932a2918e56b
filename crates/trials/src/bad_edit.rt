// The choice of an edit that is to be refused.
use super::chance::Chance;
use super::costs::Costs;
use super::ends::Wish;
use super::ground::{Ground, different, edit};
use super::pair::Pair;
use book::{Edit, Kind, Refusal};

const KINDS: [Kind; 4] = [Kind::Insert, Kind::Cheapen, Kind::Raise, Kind::Delete];

// The kinds that read a cost, and those that need a link.
const WITH_COST: [Kind; 3] = [Kind::Insert, Kind::Cheapen, Kind::Raise];

const OF_LINK: [Kind; 3] = [Kind::Cheapen, Kind::Raise, Kind::Delete];

// Costs that no link has.
const BAD_COSTS: [u64; 4] = [65536, 4294967297, 0, 0];

// Stops that no link has.
fn bad_link(chance: &mut Chance, stops: u64) -> Pair {
    let link = different(chance, stops, false);
    match chance.draw(4) {
        0 => Pair::new(link.u, stops),
        1 => Pair::new(4294967296, link.v),
        _ => Pair::new(link.u, link.u),
    }
}

// A cheapen that does not, or a raise that does not.
fn wrong_side(chance: &mut Chance, ground: Ground) -> Edit {
    let link = ground.fitting(chance, Wish::Present);
    let present = ground.costs.at(link);
    let more = chance.draw(3);
    if chance.once_in(2) {
        return edit(Kind::Cheapen, link, present.wrapping_add(more));
    }
    let less = if more < present {
        present - more
    } else {
        present
    };
    edit(Kind::Raise, link, less)
}

// An edit that is to be refused so, if a link, or two stops without one, are found for it.
pub fn bad_edit(chance: &mut Chance, refusal: Refusal, costs: &Costs) -> Edit {
    let stops = costs.stops;
    let ground = Ground {
        costs,
        ties: costs,
        even: false,
    };
    match refusal {
        Refusal::BadStop => {
            let kind = chance.pick(&KINDS);
            edit(kind, bad_link(chance, stops), chance.draw(3))
        }
        Refusal::BadCost => {
            let kind = chance.pick(&WITH_COST);
            let link = different(chance, stops, false);
            edit(kind, link, chance.pick(&BAD_COSTS))
        }
        Refusal::LinkPresent => {
            let link = ground.fitting(chance, Wish::Present);
            edit(Kind::Insert, link, 1 + chance.draw(4))
        }
        Refusal::LinkAbsent => {
            let kind = chance.pick(&OF_LINK);
            let link = ground.fitting(chance, Wish::Absent);
            edit(kind, link, 1 + chance.draw(4))
        }
        _ => wrong_side(chance, ground),
    }
}
