// A list of edits by value. It has room for two edits more than a list may have.
ghost use Rattle.std.specs.Prelude.{◌≡◌, ℕ, ◌+◌, ◌*◌, ◌<◌, ◌≤◌, length, min, slice_index, slice_set, take};
ghost use Rattle.book.specs.declared.Edit.{Edit};
ghost use Rattle.calls.specs.Lists.{four, number_at, number_in};

use book::{Edit, Kind};

// The room in edits, and in numbers.
pub const EDITS: usize = 34;

pub const NUMBERS: usize = 136;

// A list is handed on by value with its call, so it is copied, and the library's vector of fixed room is not.
#[derive(Clone, Copy)]
pub struct List {
    length: usize,
    edits: [Edit; EDITS],

    ghost fits: { length ≤ 34 },
}

// How many numbers the edits have; a list that is longer than its room counts as full.
pub fn numbers_of(length: usize) -> usize
    ensures { (length ≤ 34 → result ≡ 4 * length) × (result ≤ 136) }
{
    if length < EDITS { 4 * length } else { NUMBERS }
}

// The four numbers of an edit, as the C face has them: its kind, its two stops and its cost.
fn four(edit: Edit) -> [u64; 4]
    ensures { result ≡ four edit }
{
    let kind = match edit.kind {
        Kind::Insert => 1,
        Kind::Cheapen => 2,
        Kind::Raise => 3,
        Kind::Delete => 4,
    };
    [kind, edit.u, edit.v, edit.cost]
}

// Number i of those of all edits.
fn number_at(edits: &[Edit; EDITS], i: usize) -> u64
    requires { i < 136 }
    ensures { (other : Edit) → result ≡ number_at edits.now other i }
{
    four(edits[i / 4])[i % 4]
}

impl List {
    pub fn new() -> List
        ensures { result.length ≡ 0 }
    {
        let edit = Edit {
            kind: Kind::Insert,
            u: 0,
            v: 0,
            cost: 0,
        };
        List {
            length: 0,
            edits: [edit; EDITS],
        }
    }

    // The list with one edit more; a full list stays.
    pub fn with(self, edit: Edit) -> List
        ensures more { self.length < 34 → (result.length ≡ self.length + 1) × (result.edits ≡ slice_set self.edits self.length edit) }
        ensures full { 34 ≤ self.length → result ≡ self }
    {
        if self.length == EDITS {
            return self;
        }
        let mut edits = self.edits;
        edits[self.length] = edit;
        List {
            length: self.length + 1,
            edits,
        }
    }

    // The first edits, as many as there is room for.
    pub fn of(edits: &[Edit]) -> List
        ensures count { result.length ≡ min (length edits.now) 34 }
        ensures first { take result.length result.edits ≡ take 34 edits.now }
    {
        edits
            .iter()
            .fold(List::new(), |list, edit| list.with(*edit))
    }

    pub fn edits(&self) -> &[Edit]
        ensures { result.now ≡ take self.now.length self.now.edits }
    {
        &self.edits[..self.length]
    }

    // Number i of its edits, 0 behind them.
    fn number(&self, i: usize) -> u64
        requires { i < 136 }
        ensures { (other : Edit) → result ≡ number_in self.now.length self.now.edits other i }
    {
        if i < numbers_of(self.length) {
            number_at(&self.edits, i)
        } else {
            0
        }
    }

    // Its numbers, and 0 in the rest of the room.
    pub fn numbers(&self) -> [u64; NUMBERS]
        ensures { (i : ℕ) (other : Edit) → i < 136 → slice_index result i ≡ number_in self.now.length self.now.edits other i }
    {
        let mut numbers = [0; NUMBERS];
        for (i, number) in numbers.iter_mut().enumerate() {
            *number = self.number(i);
        }
        numbers
    }
}
