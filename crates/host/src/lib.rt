// The C face of the hall: each call over pointers and lengths, with the documents' number for its refusal.
// The header is host/hall.h.
#![tactic(auto)]

ghost use Rattle.std.specs.Prelude.{◌≡◌, ℕ, List};
ghost use Rattle.book.specs.Call.{empty_hall, work_out, audit, move_over, edit, list_routes, image_write, image_read, number, image_check};
ghost use Rattle.book.specs.Contract.{found_layout, found, left, left_beside, found_unpassed, left_shares, of_edit, of_list, of_write};
ghost use Rattle.book.specs.declared.Kind.TheVariants.{Insert, Cheapen, Raise, Delete};
ghost use Rattle.host.specs.Promise.{in_numbers, Handed, HandedList, of_number, of_edited, of_listed, of_written};

use book::lent::{Lent, LentMut};
use book::number_of::number_of;
use book::{Edit, Edited, Kind, ListEdited, ListRefused, Refusal};
use edits::edit::edit;
use flat_list::{edit_flat, other_kind};
use hall::audit::audit;
use hall::empty_hall::empty_hall;
use hall::work_out::work_out;
use image_form::image_check::image_check;
use images::image_read::image_read;
use images::image_write::image_write;
use moves::move_over;
use route_lists::list_routes;

// The tables of an exported function as one struct. It is made in the function itself, so that the check knows whose tables they are.
macro_rules! lent_mut {
    ($cost:ident, $passing:ident, $time:ident, $ways:ident, $share:ident, $score:ident) => {
        LentMut {
            cost: $cost,
            passing: $passing,
            time: $time,
            ways: $ways,
            share: $share,
            score: $score,
        }
    };
}

// An edit's refusal, the number of touched sources, their set, and the cost before.
#[repr(C)]
#[derive(Drop)]
pub struct HallEdited {
    pub refusal: u32,
    pub rows: u32,
    pub touched: u64,
    pub before: u32,
}

impl From<Result<Edited, Refusal>> for HallEdited {
    ghost from_gives = { λ done e. of_edited e ≡ in_numbers (of_edit done) };

    fn from(done: Result<Edited, Refusal>) -> HallEdited {
        match done {
            Ok(done) => HallEdited {
                refusal: 0,
                rows: done.rows,
                touched: done.touched,
                before: done.before,
            },
            Err(refusal) => HallEdited {
                refusal: refusal.number(),
                rows: 0,
                touched: 0,
                before: 0,
            },
        }
    }
}

// The answer to a list with an edit that is none: no refusal of a call, for no call is made.
pub const NO_KIND: u32 = 255;

// A list's refusal, the place of the first refused edit, the set of touched sources and their number.
#[repr(C)]
#[derive(Drop)]
pub struct HallListed {
    pub refusal: u32,
    pub place: u32,
    pub touched: u64,
    pub rows: u32,
}

impl From<Result<ListEdited, ListRefused>> for HallListed {
    ghost from_gives = { λ done l. of_listed l ≡ in_numbers (of_list done) };

    fn from(done: Result<ListEdited, ListRefused>) -> HallListed {
        match done {
            Ok(done) => HallListed {
                refusal: 0,
                place: 0,
                touched: done.touched,
                rows: done.rows,
            },
            Err(refused) => HallListed {
                refusal: refused.refusal.number(),
                place: refused.place,
                touched: 0,
                rows: 0,
            },
        }
    }
}

// The refusal of a call that writes bytes, and their number.
#[repr(C)]
#[derive(Drop)]
pub struct HallWritten {
    pub refusal: u32,
    pub length: u64,
}

impl From<Result<usize, Refusal>> for HallWritten {
    ghost from_gives = { λ done w. (buffer : List ℕ) → of_written w buffer ≡ in_numbers (of_write done buffer) };

    fn from(done: Result<usize, Refusal>) -> HallWritten {
        match done {
            Ok(length) => HallWritten {
                refusal: 0,
                length: length as u64,
            },
            Err(refusal) => HallWritten {
                refusal: refusal.number(),
                length: 0,
            },
        }
    }
}

#[unsafe(no_mangle)]
pub extern "C" fn hall_empty(
    n: u64,
    cost: &mut [u32],
    passing: &[u32],
    time: &mut [u32],
    ways: &mut [u32],
    share: &mut [u64],
    score: &mut [u64],
) -> u32
    ensures { Handed (record { n = n; ask = empty_hall passing.now }) (found cost.old passing.now time.old ways.old share.old score.old) (left cost.new passing.now time.new ways.new share.new score.new) (of_number result) }
{
    number_of(empty_hall(n, &mut lent_mut!(cost, passing, time, ways, share, score)))
}

#[unsafe(no_mangle)]
pub extern "C" fn hall_work_out(
    n: u64,
    cost: &[u32],
    passing: &[u32],
    time: &mut [u32],
    ways: &mut [u32],
    share: &mut [u64],
    score: &mut [u64],
) -> u32
    ensures { Handed (record { n = n; ask = work_out (found_layout cost.now passing.now) }) (found cost.now passing.now time.old ways.old share.old score.old) (left_beside cost.now passing.now time.new ways.new share.new score.new) (of_number result) }
{
    number_of(work_out(n, cost, passing, time, ways, share, score))
}

#[unsafe(no_mangle)]
pub extern "C" fn hall_audit(
    n: u64,
    cost: &[u32],
    passing: &[u32],
    time: &[u32],
    ways: &[u32],
    share: &[u64],
    score: &[u64],
) -> u32
    ensures { Handed (record { n = n; ask = audit }) (found cost.now passing.now time.now ways.now share.now score.now) (found cost.now passing.now time.now ways.now share.now score.now) (of_number result) }
{
    number_of(audit(n, &Lent::new(cost, passing, time, ways, share, score)))
}

// Tables of the old scale and limit, moved over to this one's.
#[unsafe(no_mangle)]
pub extern "C" fn hall_move_over(
    n: u64,
    cost: &[u32],
    time: &[u32],
    ways: &[u32],
    share: &mut [u64],
    score: &mut [u64],
) -> u32
    ensures { Handed (record { n = n; ask = move_over }) (found_unpassed n cost.now time.now ways.now share.old score.old) (left_shares n cost.now time.now ways.now share.new score.new) (of_number result) }
{
    number_of(move_over(n, cost, time, ways, share, score))
}

#[unsafe(no_mangle)]
pub extern "C" fn hall_insert(
    n: u64,
    u: u64,
    v: u64,
    c: u64,
    cost: &mut [u32],
    passing: &[u32],
    time: &mut [u32],
    ways: &mut [u32],
    share: &mut [u64],
    score: &mut [u64],
) -> HallEdited
    ensures { Handed (record { n = n; ask = edit (record { kind = Insert; u = u; v = v; cost = c }) }) (found cost.old passing.now time.old ways.old share.old score.old) (left cost.new passing.now time.new ways.new share.new score.new) (of_edited result) }
{
    let e = Edit {
        kind: Kind::Insert,
        u,
        v,
        cost: c,
    };
    HallEdited::from(edit(
        n,
        e,
        &mut lent_mut!(cost, passing, time, ways, share, score),
    ))
}

#[unsafe(no_mangle)]
pub extern "C" fn hall_cheapen(
    n: u64,
    u: u64,
    v: u64,
    c: u64,
    cost: &mut [u32],
    passing: &[u32],
    time: &mut [u32],
    ways: &mut [u32],
    share: &mut [u64],
    score: &mut [u64],
) -> HallEdited
    ensures { Handed (record { n = n; ask = edit (record { kind = Cheapen; u = u; v = v; cost = c }) }) (found cost.old passing.now time.old ways.old share.old score.old) (left cost.new passing.now time.new ways.new share.new score.new) (of_edited result) }
{
    let e = Edit {
        kind: Kind::Cheapen,
        u,
        v,
        cost: c,
    };
    HallEdited::from(edit(
        n,
        e,
        &mut lent_mut!(cost, passing, time, ways, share, score),
    ))
}

#[unsafe(no_mangle)]
pub extern "C" fn hall_raise(
    n: u64,
    u: u64,
    v: u64,
    c: u64,
    cost: &mut [u32],
    passing: &[u32],
    time: &mut [u32],
    ways: &mut [u32],
    share: &mut [u64],
    score: &mut [u64],
) -> HallEdited
    ensures { Handed (record { n = n; ask = edit (record { kind = Raise; u = u; v = v; cost = c }) }) (found cost.old passing.now time.old ways.old share.old score.old) (left cost.new passing.now time.new ways.new share.new score.new) (of_edited result) }
{
    let e = Edit {
        kind: Kind::Raise,
        u,
        v,
        cost: c,
    };
    HallEdited::from(edit(
        n,
        e,
        &mut lent_mut!(cost, passing, time, ways, share, score),
    ))
}

#[unsafe(no_mangle)]
pub extern "C" fn hall_delete(
    n: u64,
    u: u64,
    v: u64,
    cost: &mut [u32],
    passing: &[u32],
    time: &mut [u32],
    ways: &mut [u32],
    share: &mut [u64],
    score: &mut [u64],
) -> HallEdited
    ensures { Handed (record { n = n; ask = edit (record { kind = Delete; u = u; v = v; cost = 0 }) }) (found cost.old passing.now time.old ways.old share.old score.old) (left cost.new passing.now time.new ways.new share.new score.new) (of_edited result) }
{
    let e = Edit {
        kind: Kind::Delete,
        u,
        v,
        cost: 0,
    };
    HallEdited::from(edit(
        n,
        e,
        &mut lent_mut!(cost, passing, time, ways, share, score),
    ))
}

// A list of edits, four numbers each. One of the first 32 that has another kind or is cut short is told, and then nothing is done.
#[unsafe(no_mangle)]
pub extern "C" fn hall_edit_numbers(
    n: u64,
    list: &[u64],
    cost: &mut [u32],
    passing: &[u32],
    time: &mut [u32],
    ways: &mut [u32],
    share: &mut [u64],
    score: &mut [u64],
) -> HallListed
    ensures { HandedList n list.now (found cost.old passing.now time.old ways.old share.old score.old) (left cost.new passing.now time.new ways.new share.new score.new) result }
{
    if let Some(place) = other_kind(list) {
        return HallListed {
            refusal: NO_KIND,
            place: place as u32,
            touched: 0,
            rows: 0,
        };
    }
    HallListed::from(edit_flat(
        n,
        list,
        &mut lent_mut!(cost, passing, time, ways, share, score),
    ))
}

#[unsafe(no_mangle)]
pub extern "C" fn hall_list_routes(
    n: u64,
    s: u64,
    t: u64,
    cost: &[u32],
    passing: &[u32],
    time: &[u32],
    ways: &[u32],
    share: &[u64],
    score: &[u64],
    buffer: &mut [u8],
) -> HallWritten
    ensures { Handed (record { n = n; ask = list_routes s t buffer.old }) (found cost.now passing.now time.now ways.now share.now score.now) (found cost.now passing.now time.now ways.now share.now score.now) (of_written result buffer.new) }
{
    let hall = Lent::new(cost, passing, time, ways, share, score);
    HallWritten::from(list_routes(n, s, t, &hall, buffer))
}

#[unsafe(no_mangle)]
pub extern "C" fn hall_image_write(
    n: u64,
    cost: &[u32],
    passing: &[u32],
    time: &[u32],
    ways: &[u32],
    share: &[u64],
    score: &[u64],
    buffer: &mut [u8],
) -> HallWritten
    ensures { Handed (record { n = n; ask = image_write buffer.old }) (found cost.now passing.now time.now ways.now share.now score.now) (found cost.now passing.now time.now ways.now share.now score.now) (of_written result buffer.new) }
{
    HallWritten::from(image_write(
        n,
        &Lent::new(cost, passing, time, ways, share, score),
        buffer,
    ))
}

#[unsafe(no_mangle)]
pub extern "C" fn hall_image_read(
    n: u64,
    image: &[u8],
    cost: &mut [u32],
    passing: &[u32],
    time: &mut [u32],
    ways: &mut [u32],
    share: &mut [u64],
    score: &mut [u64],
) -> u32
    ensures { Handed (record { n = n; ask = image_read image.now passing.now }) (found cost.old passing.now time.old ways.old share.old score.old) (left cost.new passing.now time.new ways.new share.new score.new) (of_number result) }
{
    let mut hall = lent_mut!(cost, passing, time, ways, share, score);
    number_of(image_read(n, image, &mut hall))
}

// 0 for an image of a hall of n stops, else 1 or 9. Document 01 has the bytes before n.
#[unsafe(no_mangle)]
pub extern "C" fn hall_image_check(image: &[u8], n: u64) -> u32
    ensures { result ≡ number (image_check n image.now) }
{
    number_of(image_check(image, n))
}
