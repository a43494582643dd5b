// Changes of a net's value, and events that may be their cause.
use crate::events::Event;
use sg_logic::Value;

/// A change of a net: when, and from which value to which.
#[derive(Clone, Copy)]
pub struct Change {
    pub time: u64,
    pub from: Value,
    pub to: Value,
}

/// An event with its number, and the input whose net it is of: by the input's place in the element's order.
#[derive(Clone, Copy)]
pub struct Candidate {
    pub input: usize,
    pub number: u32,
    pub event: Event,
}
