//! An agenda with a list in front of it, of what takes effect in the next round of the same time.
#![tactic(auto)]

mod flushing;
mod immediate;
mod standings;

pub use immediate::Immediate;
