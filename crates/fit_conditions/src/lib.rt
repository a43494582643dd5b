//! The changes of timing checks that have conditions of their time stamp and their time check.
#![tactic(auto)]

mod edits;
mod limits;
mod pieces;
mod spelling;

pub use edits::condition_edits;
pub use fit_checks::{conditions_are_kept, is_exact};
