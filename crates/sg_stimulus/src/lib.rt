//! What is applied to a circuit's inputs over time.
#![tactic(auto)]

mod fitting;
mod steps;

pub use steps::{Set, StimStep, Stimulus};
