// The route list: the quickest routes from one stop to another, in a lent buffer.
#![tactic(auto)]

ghost use Rattle.std.specs.Prelude.{◌≡◌, ◌<◌, ◌≤◌, length};
ghost use Rattle.std.proofs.lemmas.List.Edits.{sets};
ghost use Rattle.book.specs.Call.{list_routes, Done};
ghost use Rattle.book.specs.Contract.{seen, of_write, stored};
ghost use Rattle.route_lists.specs.Promise.{Few, Admits};
ghost use Rattle.route_lists.specs.Listed.{visits, all_stops, Lists, list_of};

use book::Refusal;
use book::lent::Lent;
use book::limits::Hall;
use cells::places::read_entry;
use hall::audit::audit;
use route_walk::trip::Trip;
use route_walk::{on_from, put_routes};

// How many of the routes visit the stop v: the ways to it times those on from it, where the times to it and on from it, with what it
// takes to pass it, are the time of the whole.
fn visiting(trip: &Trip<'_>, ways: &[u32], v: usize) -> usize
    requires { Few trip.now.n ways.now × (v < trip.now.n) }
    ensures { (result ≡ visits trip.now ways.now v) × (result ≤ 169) }
{
    let Trip {
        n,
        s,
        t,
        passing,
        time,
        ..
    } = *trip;
    let near = u64::from(read_entry(n, s, v, time));
    let far = on_from(n, s, t, v, passing, time);
    if near + far != u64::from(read_entry(n, s, t, time)) {
        return 0;
    }
    (read_entry(n, s, v, ways) * read_entry(n, v, t, ways)) as usize
}

// How many stops the routes have in all: each stop counts once for every route that visits it. A loop, since the bound of a chain's
// `sum` over a range is not proved by what each stop adds.
fn stops_in_all(trip: &Trip<'_>, ways: &[u32]) -> usize
    requires { Few trip.now.n ways.now }
    ensures { result ≡ all_stops trip.now ways.now }
{
    let mut stops = 0;
    for v in 0..trip.n {
        stops += visiting(trip, ways, v);
    }
    stops
}

// Stores the number of routes, and the routes behind it.
fn put_list(trip: &Trip<'_>, ways: &[u32], buffer: &mut [u8])
    requires { Lists trip.now ways.now × (length (list_of trip.now) ≤ length buffer.old) }
    ensures { buffer.new ≡ sets buffer.old 0 (list_of trip.now) }
{
    buffer[0] = read_entry(trip.n, trip.s, trip.t, ways) as u8;
    put_routes(trip, 1, buffer);
}

// Stores the list where it fits. Else nothing is written.
fn store(trip: &Trip<'_>, ways: &[u32], buffer: &mut [u8]) -> Result<usize, Refusal>
    requires { Lists trip.now ways.now }
    ensures { of_write result buffer.new ≡ stored (list_of trip.now) buffer.old }
{
    let routes = read_entry(trip.n, trip.s, trip.t, ways) as usize;
    let length = 1 + routes + stops_in_all(trip, ways);
    if buffer.len() < length {
        return Err(Refusal::ShortBuffer);
    }
    put_list(trip, ways, buffer);
    Ok(length)
}

// The tests before the buffer's: those of an audit, 4 for a stop of n or more, while a stop to itself is allowed, and 14 for a crowded pair.
fn admit(n: u64, s: u64, t: u64, lent: &Lent<'_>) -> Result<(), Refusal>
    ensures { Admits n s t (seen lent.now) result }
{
    audit(n, lent)?;
    if n <= s || n <= t {
        return Err(Refusal::BadStop);
    }
    let routes = read_entry(n as usize, s as usize, t as usize, lent.ways);
    if Hall::WAYS < routes {
        return Err(Refusal::CrowdedPair);
    }
    Ok(())
}

// Writes the quickest routes from s to t to the buffer and gives the length written.
pub fn list_routes(
    n: u64,
    s: u64,
    t: u64,
    lent: &Lent<'_>,
    buffer: &mut [u8],
) -> Result<usize, Refusal>
    ensures { Done (record { n = n; ask = list_routes s t buffer.old }) (seen lent.now) (seen lent.now) (of_write result buffer.new) }
{
    admit(n, s, t, lent)?;
    let trip = Trip {
        n: n as usize,
        s: s as usize,
        t: t as usize,
        cost: lent.cost,
        passing: lent.passing,
        time: lent.time,
    };
    store(&trip, lent.ways, buffer)
}
