//! The driver of each net of a circuit: the stimulus, an element, or timing checks.
#![tactic(auto)]

mod places;
mod table;

pub use table::drivers;
