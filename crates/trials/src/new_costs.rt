// The costs of a new hall.
use super::chance::Chance;
use super::costs::{Costs, LARGEST};
use super::pair::{Pair, Pairs};

// How the links of a new hall are drawn: of its pairs of stops about `density` in 8 have one. In an even hall a link forward
// costs the distance of its stops, so that all routes forward tie.
#[derive(Clone, Copy)]
struct Style {
    density: u64,
    even: bool,
}

impl Style {
    fn drawn(chance: &mut Chance, even: bool) -> Self {
        let density = 1 + chance.draw(8);
        if !even {
            return Style { density, even };
        }
        let density = if chance.once_in(6) {
            6 + chance.draw(2)
        } else {
            8
        };
        Style { density, even }
    }

    // The cost of a link, 0 for none.
    fn link(self, chance: &mut Chance, pair: Pair) -> u64 {
        if pair.is_same_stop() || self.density <= chance.draw(8) {
            return 0;
        }
        if self.even && !pair.is_forward() {
            return if chance.once_in(4) { 5 } else { 0 };
        }
        some_cost(chance, pair.apart(), self.even)
    }
}

// The cost of a link that is to cost so much if its hall is even, and else mostly a small number.
pub fn some_cost(chance: &mut Chance, tie: u64, even: bool) -> u64 {
    if even {
        return tie;
    }
    if chance.once_in(24) {
        return LARGEST;
    }
    1 + chance.draw(4)
}

// The cost table of a new hall, of a kind that is drawn; each kind draws what it needs, in this order.
pub fn new_costs(chance: &mut Chance, stops: u64, even: bool) -> Costs {
    let mut costs = Costs::none(stops);
    let style = Style::drawn(chance, even);
    for pair in Pairs::of(stops) {
        let cost = style.link(chance, pair);
        costs.put(pair, cost);
    }
    match chance.draw(5) {
        0 => shorten(&mut costs),
        1 | 2 => loosen(chance, &mut costs),
        3 => bring_near_limit(chance, &mut costs),
        _ => {}
    }
    costs
}

// Takes two links out. Of 16 ways from the first stop to the last, an even hall of six stops with all
// links forward then has 12 or 13; of 32 ways one of seven stops has 22 or 23.
fn bring_near_limit(chance: &mut Chance, costs: &mut Costs) {
    let (out, first) = match costs.stops {
        6 => (Pair::new(1, 3), 3),
        7 => (Pair::new(1, 2), 4),
        _ => return,
    };
    costs.put(out, 0);
    let v = first + chance.draw(2);
    costs.put(Pair::new(0, v), 0);
}

// Makes the link from the first stop to the second dear, or takes it out.
fn loosen(chance: &mut Chance, costs: &mut Costs) {
    if 1 < costs.stops {
        costs.put(Pair::new(0, 1), 3 * chance.draw(2));
    }
}

// Makes the link from the first stop to the last cost one less than their distance.
fn shorten(costs: &mut Costs) {
    let stops = costs.stops;
    if 3 <= stops {
        costs.put(Pair::new(0, stops - 1), stops - 2);
    }
}
