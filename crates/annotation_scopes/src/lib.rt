//! The scopes of which cells and paths of SDF files speak.
#![tactic(auto)]

mod cells;
mod names;
mod walks;

pub use cells::CellScopes;
pub use names::called_names;
pub use walks::{climb, descend};
