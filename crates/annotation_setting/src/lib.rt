//! What annotation made of a circuit's delays and limits, set in the circuit.
#![tactic(auto)]

mod blank;
mod limits;
mod setting;
mod timings;

pub use setting::set_all;
