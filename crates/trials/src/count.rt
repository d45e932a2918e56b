// What is counted one by one.
#[derive(Clone, Copy, PartialEq, Eq)]
pub enum Count {
    Sequences,
    // Sequences that start from a moved hall, and those of them with a pair of several ways.
    Moved,
    MovedTies,
    Answers,
    Tables,
    // The sources that accepted edits and lists touched.
    Touched,
    // Accepted calls that leave a pair of several ways.
    Ties,
    // Calls on tables with an entry drawn anew, which may be the old one.
    Spoiled,
    // Accepted lists, not empty, that left the tables as they were.
    Undone,
    // Accepted lists with a crowded pair in passing, but neither before nor after.
    CrowdedInPassing,
    // Accepted route lists with routes of different lengths, those from a stop to itself, and those in a longer buffer.
    Uneven,
    Staying,
    Longer,
    // Route lists refused for a single byte.
    OneShort,
    // Accepted calls that bring passing times above 0, and the times in their tables that are others without these.
    PassedHalls,
    PassedTimes,
    // Accepted calls that leave a pair of several ways in a hall with passing times above 0.
    PassedTies,
    // Accepted moving calls in such a hall, and those refused with 3 though all shares are 0.
    PassedMoves,
    PassedKept,
    // Accepted calls that leave a crowded pair in such a hall.
    PassedCrowded,
    // Refusals 2 where a passing time is too large too, and 13 where the tables are not right either.
    OddAndBad,
    BadAndWrong,
    // Accepted calls that leave a hall with a crowded pair.
    Crowded,
    // Accepted edits with a crowded pair before or after them, those without, and those that made a pair crowded, or uncrowded.
    CrowdedEdits,
    UncrowdedEdits,
    Made,
    Unmade,
    // Touched rows that look the same before and after.
    Alike,
    // Accepted edits with a crowded pair before or after them that the next call reversed.
    ReversedCrowded,
    // Moving calls on right tables with a crowded pair, refused with 3.
    CrowdedMoves,
    // Refusals 14 where the buffer is too short too, and 4 where the entry that the stops point at is that of a crowded pair.
    CrowdedAndShort,
    PastCrowded,
    Differences,
    // The number of the first answer with a difference.
    First,
}

// How many there are.
pub const COUNTS: usize = Count::First as usize + 1;
