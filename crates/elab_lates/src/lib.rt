//! The delayed copies of a module's signals, for which its timing checks ask so that limits below 0 can be met: each once, in text order.
#![tactic(auto)]

mod asking;
mod copies;
mod making;

pub use asking::copy_of;
pub use copies::{DelayedCopy, ModuleCopies, PlacedCopy};
pub use making::module_copies;
