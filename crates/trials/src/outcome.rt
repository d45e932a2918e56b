// The calls under trial.
use super::ask::Ask;
use super::buffer::BYTES;
use super::passing::Passing;
use calls::answer::Answer;
use calls::tables::Tables;
use make_call::make;

// What a call answers, and the bytes of the buffer after it.
#[derive(Clone, Copy)]
pub struct Outcome {
    pub answer: Answer,
    pub bytes: [u8; BYTES],
}

// The passing times that a call on tables is lent.
pub fn lent(ask: &Ask, stops: u64, tables: &Tables) -> Passing {
    match ask.passing {
        Some(brought) => brought,
        None => Passing::of(stops, tables),
    }
}

// Sets what a call brings.
fn bring(ask: &Ask, tables: &mut Tables) {
    if let Some(passing) = &ask.passing {
        passing.put_into(tables);
    }
    if let Some(costs) = &ask.costs {
        costs.put_into(tables);
    }
}

// Sets back what a refused call brought.
fn set_back(ask: &Ask, former: &Tables, tables: &mut Tables) {
    if ask.passing.is_some() {
        let passing = former.passing;
        tables.passing = passing;
    }
    if ask.costs.is_some() {
        let cost = former.cost;
        tables.cost = cost;
    }
}

// Makes the call on tables of a hall of so many stops, which `former` has a copy of.
pub fn asked(ask: &Ask, stops: u64, former: &Tables, tables: &mut Tables) -> Outcome {
    bring(ask, tables);
    let image = ask.buffer;
    let mut buffer = ask.buffer;
    let answer = make(
        ask.call,
        stops,
        ask.odd,
        image.lent(),
        buffer.lent_mut(),
        tables,
    );
    if answer.refusal.is_some() {
        set_back(ask, former, tables);
    }
    let bytes = buffer.bytes;
    Outcome { answer, bytes }
}
