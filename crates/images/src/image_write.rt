// Image write: the links of a hall and a trailer, in a lent buffer.
ghost use Rattle.std.specs.Prelude.{◌≡◌, true, ◌+◌, ◌*◌, ◌<◌, ◌≤◌, length};
ghost use Rattle.std.proofs.lemmas.List.Edits.{sets};
ghost use Rattle.book.specs.Hall.{entry, valid_costs, image_of};
ghost use Rattle.book.specs.Written.{links_to, trailer};
ghost use Rattle.book.specs.Call.{image_write, Done};
ghost use Rattle.book.specs.Contract.{seen, of_write, stored};
ghost use Rattle.images.specs.Promise.{link_bit, link_bytes, links, Room, Wrote};

use super::fields;
use book::Refusal;
use book::lent::Lent;
use cells::places;
use hall::audit::audit;

// The number of links.
fn count(cost: &[u32]) -> usize
    ensures { (result ≡ links cost.now) × (result ≤ length cost.now) }
{
    let mut links = 0;
    for c in cost {
        links += usize::from(0 < *c);
    }
    links
}

// Stores the record of a pair that has a link. Says where the next record goes.
fn put_link(u: usize, v: usize, cost: u32, at: usize, buffer: &mut [u8]) -> usize
    requires { (u < 256) × (v < 256) × (cost < 65536) × (at + 4 * link_bit cost ≤ length buffer.old) }
    ensures { (result ≡ at + 4 * link_bit cost) × (buffer.new ≡ sets buffer.old at (link_bytes u v cost)) }
{
    if cost == 0 {
        return at;
    }
    fields::put_record(u as u8, v as u8, cost as u16, at, buffer);
    at + 4
}

// Stores the records of the links from u, behind those of the stops before it. The place goes from one to the next as a number: a
// writer over the buffer would hold the same place, and its promises would say the same of it.
fn put_row(n: usize, u: usize, cost: &[u32], start: usize, buffer: &mut [u8]) -> usize
    requires room { Room n cost.now buffer.old }
    requires u_lt_n { (u < n) × (start ≡ 4 * links_to n (entry n cost.now) u 0) }
    ensures { Wrote n cost.now u 0 start (u + 1) 0 result buffer.old buffer.new }
{
    let row = places::start(n, u);
    let mut at = start;
    for v in 0..n {
        at = put_link(u, v, cost[row + v], at, buffer);
    }
    at
}

// Stores the records of all links, stop by stop, as above. Says where the trailer goes.
fn put_rows(n: usize, cost: &[u32], buffer: &mut [u8]) -> usize
    requires { Room n cost.now buffer.old }
    ensures { Wrote n cost.now 0 0 0 n 0 result buffer.old buffer.new }
{
    let mut at = 0;
    for u in 0..n {
        at = put_row(n, u, cost, at, buffer);
    }
    at
}

// Stores the trailer: n, the kind, the number of links, and the distance back to the first record.
fn put_trailer(n: usize, links: usize, at: usize, buffer: &mut [u8])
    requires { (n < 256) × (links < 65536) × (at + 8 ≤ length buffer.old) }
    ensures { buffer.new ≡ sets buffer.old at (trailer n links) }
{
    fields::put_record(n as u8, 1, links as u16, at, buffer);
    fields::put_four(4 * links as u32, at + 4, buffer);
}

// Stores the image where it fits. Else nothing is written.
fn store(n: usize, cost: &[u32], buffer: &mut [u8]) -> Result<usize, Refusal>
    requires { (n ≤ 64) × (length cost.now ≡ n * n) × (valid_costs n cost.now ≡ true) }
    ensures { of_write result buffer.new ≡ stored (image_of n cost.now) buffer.old }
{
    let links = count(cost);
    let length = 4 * links + 8;
    if buffer.len() < length {
        return Err(Refusal::ShortBuffer);
    }
    let at = put_rows(n, cost, buffer);
    put_trailer(n, links, at, buffer);
    Ok(length)
}

pub fn image_write(n: u64, t: &Lent<'_>, buffer: &mut [u8]) -> Result<usize, Refusal>
    ensures { Done (record { n = n; ask = image_write buffer.old }) (seen t.now) (seen t.now) (of_write result buffer.new) }
{
    audit(n, t)?;
    store(n as usize, t.cost, buffer)
}
