//! From a netlist's files to its circuit: tokens, tree and elaboration, one after another.
#![tactic(auto)]

mod kinds;
mod names;
mod netlists;

pub use kinds::{NetlistKind, write_kind};
pub use netlists::read_netlist;
