//! The machine of a circuit, and its simulation in work that is in proportion to what changes.
#![tactic(auto)]

mod circuit_checks;
mod engine;
mod fitting;
mod laws;
mod moments;
mod pausing;
mod restoring;
mod resumed;
mod settling;
mod sim;
mod stops;

pub use fitting::fits;
pub use laws::{circuit_is_lawful, moments_of_runs_fit};
pub use moments::{LastChange, Moment, Pending};
pub use resumed::Resumed;
pub use sim::{Finished, Sim, Tally};
pub use stops::Until;
