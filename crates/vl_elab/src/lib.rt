//! `elaborate`: from the syntax tree of a netlist to its circuit.
#![tactic(auto)]

mod adjusting;
mod checks;
mod circuits;
mod driving;
mod elements;

pub use circuits::elaborate;
