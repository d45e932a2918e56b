// The lengths at which tables are lent: those of a hall, but for at most one table.
ghost use Rattle.std.specs.Prelude.{◌≡◌, ◌+◌, ◌*◌, ◌<◌, ◌≤◌};
ghost use Rattle.calls.specs.Rooms.{room_of, entries_of};

use super::tables::{CELLS, STOPS, cells, stops};

// The tables of a hall.
#[derive(Clone, Copy, PartialEq, Eq)]
pub enum Table {
    Cost,
    Time,
    Ways,
    Share,
    Score,
    Passing,
}

// The table that is lent an entry short, or an entry long.
#[derive(Clone, Copy, PartialEq, Eq)]
pub enum Odd {
    Short(Table),
    Long(Table),
}

impl Table {
    pub const ALL: [Table; 6] = [
        Table::Cost,
        Table::Time,
        Table::Ways,
        Table::Share,
        Table::Score,
        Table::Passing,
    ];

    // How many entries the table has room for.
    fn room(self) -> usize
        ensures { result ≡ room_of self }
    {
        match self {
            Table::Score | Table::Passing => STOPS,
            _ => CELLS,
        }
    }

    // How many it has in a hall of n stops.
    fn entries(self, n: u64) -> usize
        ensures { (n ≤ 65 → result ≡ entries_of self n) × (result ≤ room_of self) }
    {
        match self {
            Table::Score | Table::Passing => stops(n),
            _ => cells(n),
        }
    }

    // The length at which it is lent.
    pub fn lent(self, n: u64, odd: Option<Odd>) -> usize
        ensures { (n ≤ 65 → odd ≡ None → result ≡ entries_of self n) × (result ≤ room_of self) }
    {
        let entries = self.entries(n);
        let room = self.room();
        match odd {
            Some(Odd::Short(table)) if table == self => entries.saturating_sub(1),
            Some(Odd::Long(table)) if table == self => {
                if entries < room { entries + 1 } else { entries }
            }
            _ => entries,
        }
    }
}
