//! The edges and conditions that entries of SDF files ask for, and those that paths and timing checks have.
#![tactic(auto)]

mod edges;
mod fitting;
mod words;

pub use edges::fits_edge;
pub use fitting::{fits_condition, fits_words};
pub use words::{Wanted, condition_words, what_is_wanted};
