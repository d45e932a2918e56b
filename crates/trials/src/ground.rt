// The choice of an edit that is to be accepted.
use super::chance::Chance;
use super::costs::{Costs, LARGEST};
use super::ends::Wish;
use super::new_costs::some_cost;
use super::pair::Pair;
use super::price::price;
use book::{Edit, Kind};

// The hall that an edit is drawn for: its costs, those of a tie, and whether links forward are to get these.
#[derive(Clone, Copy)]
pub struct Ground<'a> {
    pub costs: &'a Costs,
    pub ties: &'a Costs,
    pub even: bool,
}

// Two different stops, of a hall that has two; forward alone where links are even.
pub fn different(chance: &mut Chance, stops: u64, even: bool) -> Pair {
    if stops < 2 {
        return Pair::new(0, 0);
    }
    let u = chance.draw(stops);
    let further = 1 + chance.draw(stops - 1);
    let v = u.wrapping_add(further) % stops;
    if even && v < u {
        return Pair::new(v, u);
    }
    Pair::new(u, v)
}

// An edit of a link.
pub fn edit(kind: Kind, link: Pair, cost: u64) -> Edit {
    Edit {
        kind,
        u: link.u,
        v: link.v,
        cost,
    }
}

impl Ground<'_> {
    // Whether a link is wished for an edit: in an even hall, if it has not the cost of a tie.
    fn is_wished(self, wish: Wish, link: Pair) -> bool {
        let present = self.costs.at(link);
        if self.even {
            return present != self.ties.at(link);
        }
        wish.fits(present)
    }

    // A link: where it is not wished, drawn anew up to seven times.
    pub fn fitting(self, chance: &mut Chance, wish: Wish) -> Pair {
        let stops = self.costs.stops;
        let mut link = different(chance, stops, self.even);
        for _ in 0..7 {
            if !self.is_wished(wish, link) {
                link = different(chance, stops, self.even);
            }
        }
        link
    }

    // The edit that gives a link another cost, 0 for none. A delete brings any cost.
    fn to_cost(self, chance: &mut Chance, link: Pair, cost: u64) -> Edit {
        let present = self.costs.at(link);
        if present == 0 {
            return edit(Kind::Insert, link, cost);
        }
        if cost == 0 {
            return edit(Kind::Delete, link, price(chance, present));
        }
        if cost < present {
            return edit(Kind::Cheapen, link, cost);
        }
        edit(Kind::Raise, link, cost)
    }

    // Another cost for a link, 0 for none: in an even list that of a tie, unless it has that.
    fn other_cost(self, chance: &mut Chance, link: Pair) -> u64 {
        let present = self.costs.at(link);
        let cost = some_cost(chance, self.ties.at(link), self.even);
        let none = chance.once_in(3) && present != 0;
        if cost != present {
            return if none && !self.even { 0 } else { cost };
        }
        if none { 0 } else { 1 + present % LARGEST }
    }

    // An edit that is accepted, in a hall of two stops or more.
    pub fn good(self, chance: &mut Chance) -> Edit {
        let wish = chance.pick(&[Wish::Absent, Wish::Present]);
        let link = self.fitting(chance, wish);
        let cost = self.other_cost(chance, link);
        self.to_cost(chance, link, cost)
    }

    // The last link whose cost is another in another table.
    fn strayed(self, first: &Costs) -> Option<Pair> {
        let costs = self.costs;
        let links = costs.pairs();
        links
            .filter(|link| costs.at(*link) != first.at(*link))
            .last()
    }

    // An edit that gives a link the cost that it has in another table; any edit where there is none.
    pub fn home(self, chance: &mut Chance, first: &Costs) -> Edit {
        match self.strayed(first) {
            Some(link) => self.to_cost(chance, link, first.at(link)),
            None => self.good(chance),
        }
    }
}

// The costs with that of a tie at every link forward.
fn evened(costs: &Costs, ties: &Costs) -> Costs {
    let mut even = *costs;
    for pair in costs.pairs() {
        if pair.is_forward() {
            even.put(pair, ties.at(pair));
        }
    }
    even
}

// An edit that makes a hall more even; any where it is so already.
pub fn evening(chance: &mut Chance, costs: &Costs, ties: &Costs) -> Edit {
    let ground = Ground {
        costs,
        ties,
        even: true,
    };
    ground.home(chance, &evened(costs, ties))
}
