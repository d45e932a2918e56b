// A hall: its links and the passing times of its stops.
use super::costs::Costs;
use super::passing::Passing;
use calls::tables::Tables;

#[derive(Clone, Copy)]
pub struct Hall {
    pub costs: Costs,
    pub passing: Passing,
}

impl Hall {
    pub fn new(costs: Costs, passing: Passing) -> Self {
        Hall { costs, passing }
    }

    // The hall of so many stops that has no links, and passing times of 0.
    pub fn empty(stops: u64) -> Self {
        Hall::new(Costs::none(stops), Passing::none(stops))
    }

    // That of tables.
    pub fn of(stops: u64, tables: &Tables) -> Self {
        Hall::new(Costs::of(stops, tables), Passing::of(stops, tables))
    }

    pub fn stops(&self) -> u64 {
        self.costs.stops
    }
}
