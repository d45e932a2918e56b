// The limits of a hall, in one place.
ghost use Rattle.std.specs.Prelude.{◌≡◌};
ghost use Rattle.routes.specs.Route.{mark};
ghost use Rattle.book.specs.Hall.{most_stops, largest_cost, largest_passing, most_ways, most_edits, scale, old_most_ways, old_scale, old_per_new, up_to};

// The hall as the holder of its limits; its contents lie in lent tables.
#[derive(Clone, Copy)]
pub struct Hall {}

impl Hall {
    // The most stops, and with them the most entries of a table.
    pub const STOPS: usize = 64;

    pub const CELLS: usize = Hall::STOPS * Hall::STOPS;
    // The largest cost of a link, the longest time that it takes to pass a stop, and the most ways of a pair that is not crowded.
    pub const LARGEST_COST: u32 = 65535;

    pub const LARGEST_PASSING: u32 = 65535;

    pub const WAYS: u32 = 12;
    // The most edits of a list.
    pub const EDITS: usize = 32;
    // The time where there is no route.
    pub const MARK: u32 = 4294967295;
    // What a whole share counts: the least common multiple of 1 to 12.
    pub const SCALE: u64 = 27720;
    // The most ways and the scale of halls that were made before these limits, and the quotient of the two scales: for the
    // moving call alone.
    pub const OLD_WAYS: u32 = 22;

    pub const OLD_SCALE: u64 = 232792560;

    pub const OLD_PER_NEW: u64 = 8398;

    // Whether a hall may have n stops.
    pub fn takes(n: u64) -> bool
        ensures { result ≡ up_to most_stops n }
    {
        if n == 0 {
            return false;
        }
        n <= Hall::STOPS as u64
    }
}

// The limits of the code are those of the definitions.
pub fn limits_agree()
    ensures stops { Hall.STOPS ≡ most_stops }
    ensures cost { Hall.LARGEST_COST ≡ largest_cost }
    ensures passing { Hall.LARGEST_PASSING ≡ largest_passing }
    ensures ways { Hall.WAYS ≡ most_ways }
    ensures edits { Hall.EDITS ≡ most_edits }
    ensures mark { Hall.MARK ≡ mark }
    ensures scale { Hall.SCALE ≡ scale }
    ensures old_ways { Hall.OLD_WAYS ≡ old_most_ways }
    ensures old_scale { Hall.OLD_SCALE ≡ old_scale }
    ensures old_per_new { Hall.OLD_PER_NEW ≡ old_per_new }
{}
