// The choice of the cost that a call brings.
use super::chance::Chance;
use super::costs::LARGEST;
use super::new_costs::some_cost;
use book::Kind;
use calls::call::Name;

// A cost at most two away from the present one.
fn near(chance: &mut Chance, present: u64) -> u64 {
    present.wrapping_add(chance.draw(5)).saturating_sub(2)
}

// Any cost, often that of a tie.
pub fn price(chance: &mut Chance, tie: u64) -> u64 {
    match chance.draw(24) {
        0 => 0,
        1 => LARGEST + 1,
        2 => LARGEST,
        3 => 4294967297,
        4..=15 => tie,
        _ => some_cost(chance, 0, false),
    }
}

// The cost that a call brings, where that of a tie is this: that of a cheapen or a raise is often near the present one.
pub fn cost_of(chance: &mut Chance, name: Name, tie: u64, present: u64) -> u64 {
    let moves = matches!(name, Name::Edit(Kind::Cheapen | Kind::Raise));
    if moves && chance.once_in(2) {
        return near(chance, present);
    }
    price(chance, tie)
}
