//! The causes of changes in a run of a circuit.
#![tactic(auto)]

mod causes;
mod chains;
mod changes;
mod delays;
mod events;
mod inputs;
mod links;
mod paths;
mod steps;
mod traces;
mod unknowns;

pub use causes::cause;
pub use chains::chain;
pub use events::Event;
pub use links::{Cause, Chain, Link, Rule};
pub use traces::Trace;
