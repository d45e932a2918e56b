// The tests of an edit's arguments, 4 to 8, and the cost that it sets.
#![tactic(auto)]

ghost use Rattle.std.specs.Prelude.{◌≡◌, ◌*◌, ◌≤◌, length};
ghost use Rattle.book.specs.Hall.{largest_cost, up_to, valid_pair};
ghost use Rattle.book.specs.Call.{other_cost_tests, cost_tests, edit_refusal, cost_set};
ghost use Rattle.book.specs.declared.Kind.TheVariants.{Insert, Cheapen, Raise, Delete};

use book::limits::Hall;
use book::{Edit, Kind, Refusal};
use cells::places;

// Two different stops.
fn is_pair(n: u64, u: u64, v: u64) -> bool
    ensures { result ≡ valid_pair n u v }
{
    u < n && v < n && u != v
}

// A cost that a link may have.
fn is_cost(c: u64) -> bool
    ensures { result ≡ up_to largest_cost c }
{
    1 <= c && c <= u64::from(Hall::LARGEST_COST)
}

fn permit_insert(c: u64, present: u32) -> Result<(), Refusal>
    ensures { result ≡ cost_tests Insert c present }
{
    if !is_cost(c) {
        return Err(Refusal::BadCost);
    }
    if present != 0 {
        return Err(Refusal::LinkPresent);
    }
    Ok(())
}

// Another cost for a link. `wanted` says that it lies on the side of the present one that the kind wants.
fn permit_other_cost(wanted: bool, c: u64, present: u32) -> Result<(), Refusal>
    ensures { result ≡ other_cost_tests wanted c present }
{
    if !is_cost(c) {
        return Err(Refusal::BadCost);
    }
    if present == 0 {
        return Err(Refusal::LinkAbsent);
    }
    if !wanted {
        return Err(Refusal::CostWrongSide);
    }
    Ok(())
}

fn permit_cheapen(c: u64, present: u32) -> Result<(), Refusal>
    ensures { result ≡ cost_tests Cheapen c present }
{
    permit_other_cost(c < u64::from(present), c, present)
}

fn permit_raise(c: u64, present: u32) -> Result<(), Refusal>
    ensures { result ≡ cost_tests Raise c present }
{
    permit_other_cost(u64::from(present) < c, c, present)
}

// A delete has no cost to test.
fn permit_delete(present: u32) -> Result<(), Refusal>
    ensures { result ≡ cost_tests Delete 0 present }
{
    if present == 0 {
        return Err(Refusal::LinkAbsent);
    }
    Ok(())
}

// Tests 4 to 8. Its callers prove that the cost table has its length.
pub fn permit(n: u64, e: Edit, cost: &[u32]) -> Result<(), Refusal>
    requires { (n ≤ 64) × (length cost.now ≡ n * n) }
    ensures { result ≡ edit_refusal n e cost.now }
{
    if !is_pair(n, e.u, e.v) {
        return Err(Refusal::BadStop);
    }
    let present = places::read_entry(n as usize, e.u as usize, e.v as usize, cost);
    match e.kind {
        Kind::Insert => permit_insert(e.cost, present),
        Kind::Cheapen => permit_cheapen(e.cost, present),
        Kind::Raise => permit_raise(e.cost, present),
        Kind::Delete => permit_delete(present),
    }
}

// The cost that an edit sets: 0 where it deletes. Its callers prove that it is one that a link may have, or 0.
pub fn cost_set(e: Edit) -> u32
    requires { cost_set e.kind e.cost ≤ largest_cost }
    ensures { result ≡ cost_set e.kind e.cost }
{
    match e.kind {
        Kind::Insert | Kind::Cheapen | Kind::Raise => e.cost as u32,
        Kind::Delete => 0,
    }
}
