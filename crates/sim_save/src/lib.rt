//! Moments of a simulation as texts, written and read again.
#![tactic(auto)]

mod bodies;
mod kinds;
mod lines;
mod numbers;
mod reading;
mod sections;
mod taking;
mod words;
mod writing;

pub use kinds::{SaveError, SaveKind};
pub use reading::read_save;
pub use writing::save_text;
