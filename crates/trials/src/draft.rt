// The choice of a list of edits. Each edit but one is drawn for the hall that its predecessors make, which is to accept it.
use super::bad_edit::bad_edit;
use super::chance::Chance;
use super::costs::Costs;
use super::edit::{apply, test};
use super::ground::Ground;
use book::{Edit, Refusal};
use calls::list::List;

// The refusals of an edit.
const REFUSALS: [Refusal; 5] = [
    Refusal::BadStop,
    Refusal::BadCost,
    Refusal::LinkPresent,
    Refusal::LinkAbsent,
    Refusal::CostWrongSide,
];

// How a list is drawn: its length; which edit is to be refused, and with what; whether links forward get the cost of a tie; and
// from which edit on the list goes back to the hall before it.
#[derive(Clone, Copy)]
struct Plan {
    length: u64,
    bad: Option<u64>,
    refusal: Refusal,
    even: bool,
    back: Option<u64>,
}

// The length of a list: one in sixteen is too long.
fn length(chance: &mut Chance) -> u64 {
    match chance.draw(16) {
        0 => 0,
        1 | 2 => 1,
        3..=8 => 2 + chance.draw(7),
        9..=12 => 9 + chance.draw(23),
        13 | 14 => 32,
        _ => 33 + chance.draw(2),
    }
}

impl Plan {
    // In half of the lists no edit is to be refused, and three of four do not go back.
    fn drawn(chance: &mut Chance) -> Self {
        let length = length(chance);
        let bad = chance.once_in(2).then(|| chance.draw(length));
        let back = chance.once_in(4).then_some(length / 2);
        Plan {
            length,
            bad,
            refusal: chance.pick(&REFUSALS),
            even: !chance.once_in(4),
            back,
        }
    }

    // Edit i of a list, for a hall that had these costs before the list.
    fn edit(&self, chance: &mut Chance, i: u64, ground: Ground, first: &Costs) -> Edit {
        if self.bad == Some(i) {
            return bad_edit(chance, self.refusal, ground.costs);
        }
        match self.back {
            Some(back) if back <= i => ground.home(chance, first),
            _ => ground.good(chance),
        }
    }
}

// The edits so far, and the costs that they leave.
#[derive(Clone, Copy)]
struct Draft {
    list: List,
    costs: Costs,
}

impl Draft {
    // Adds an edit.
    fn then(&mut self, edit: Edit) {
        let list = self.list;
        self.list = list.with(edit);
        if test(&edit, &self.costs).is_ok() {
            apply(&edit, &mut self.costs);
        }
    }
}

// A list for a hall with these costs, of which those are ties.
pub fn list(chance: &mut Chance, first: &Costs, ties: &Costs) -> List {
    let plan = Plan::drawn(chance);
    let mut draft = Draft {
        list: List::new(),
        costs: *first,
    };
    // By place, which the plan compares.
    for i in 0..plan.length {
        let ground = Ground {
            costs: &draft.costs,
            ties,
            even: plan.even,
        };
        let edit = plan.edit(chance, i, ground, first);
        draft.then(edit);
    }
    draft.list
}
