// A call, with what it brings beside the tables and bytes that it is lent.
ghost use Rattle.std.specs.Prelude.{◌≡◌, ◌<◌};
ghost use Rattle.calls.specs.Kinds.{act_of, name_number, name_of};

use super::list::List;
use book::{Edit, Kind};

// The calls by name, as draws choose them and counts keep them apart.
#[derive(Clone, Copy, PartialEq, Eq)]
pub enum Name {
    EmptyHall,
    WorkOut,
    Audit,
    Edit(Kind),
    EditList,
    ImageWrite,
    ImageRead,
    MoveOver,
    ListRoutes,
    ImageCheck,
}

// What a call asks for.
#[derive(Clone, Copy)]
pub enum Act {
    EmptyHall,
    WorkOut,
    Audit,
    Edit(Edit),
    EditList(List),
    ImageWrite,
    ImageRead,
    MoveOver,
    ListRoutes { s: u64, t: u64 },
    ImageCheck,
}

// For a hall of n stops.
#[derive(Clone, Copy)]
pub struct Call {
    pub n: u64,
    pub act: Act,
}

impl Name {
    // How many there are, with the kinds of edits apart.
    pub const COUNT: usize = 13;

    // The place of a name among them.
    pub fn number(self) -> usize
        ensures below { result < 13 }
        ensures value { result ≡ name_number self }
    {
        match self {
            Name::EmptyHall => 0,
            Name::WorkOut => 1,
            Name::Audit => 2,
            Name::Edit(kind) => 3 + kind as usize,
            Name::EditList => 7,
            Name::ImageWrite => 8,
            Name::ImageRead => 9,
            Name::MoveOver => 10,
            Name::ListRoutes => 11,
            Name::ImageCheck => 12,
        }
    }

    // The call of that name, with what it brings of two stops, a cost and a list.
    pub fn act(self, u: u64, v: u64, cost: u64, list: List) -> Act
        ensures { result ≡ act_of self u v cost list }
    {
        match self {
            Name::EmptyHall => Act::EmptyHall,
            Name::WorkOut => Act::WorkOut,
            Name::Audit => Act::Audit,
            Name::Edit(kind) => Act::Edit(Edit { kind, u, v, cost }),
            Name::EditList => Act::EditList(list),
            Name::ImageWrite => Act::ImageWrite,
            Name::ImageRead => Act::ImageRead,
            Name::MoveOver => Act::MoveOver,
            Name::ListRoutes => Act::ListRoutes { s: u, t: v },
            Name::ImageCheck => Act::ImageCheck,
        }
    }
}

impl Act {
    pub fn name(self) -> Name
        ensures { result ≡ name_of self }
    {
        match self {
            Act::EmptyHall => Name::EmptyHall,
            Act::WorkOut => Name::WorkOut,
            Act::Audit => Name::Audit,
            Act::Edit(edit) => Name::Edit(edit.kind),
            Act::EditList(_) => Name::EditList,
            Act::ImageWrite => Name::ImageWrite,
            Act::ImageRead => Name::ImageRead,
            Act::MoveOver => Name::MoveOver,
            Act::ListRoutes { .. } => Name::ListRoutes,
            Act::ImageCheck => Name::ImageCheck,
        }
    }
}
