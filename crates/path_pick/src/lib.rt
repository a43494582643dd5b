//! Which specify path decides a transition of an output (IEEE 1364-2005, clause 14).
#![tactic(auto)]

mod candidates;
mod conditions;
mod marks;
mod picking;
mod pulses;
mod stamps;

pub use marks::Marks;
pub use picking::{Picked, pick};
pub use pulses::{Pulse, pulse_between};
pub use stamps::Stamps;
