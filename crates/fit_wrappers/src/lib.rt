//! Instances that go, and instances that give way to what their modules hold.
#![tactic(auto)]

mod cutting;
mod dropping;
mod flattening;
mod inlining;

pub use cutting::{Cuts, Input, add_cut};
pub use dropping::add_dropped;
pub use flattening::{Moved, add_flattened};
