//! The report of a circuit's settle bounds, or of a cycle.
#![tactic(auto)]

mod bounds;
mod cycles;

pub use bounds::bounds_text;
pub use cycles::cycle_text;
