//! The changes of nets in a run, each with its time.
#![tactic(auto)]

mod history;
mod watched;

pub use history::History;
pub use watched::{Spent, Watched, watch};
