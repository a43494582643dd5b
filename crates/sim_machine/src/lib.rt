//! The machine of a circuit: what its elements compute, and how their values are placed.
#![tactic(auto)]

mod at_once;
mod cells;
mod computing;
mod elements;
mod nets;
mod placing;

pub use computing::{Inputs, compute};
pub use elements::{CircuitElements, compile, widest};
