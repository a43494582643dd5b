//! The reader of timing checks (IEEE 1364-2005, clause 15): tokens to trees, by the grammar of the crate `vl_tree`.
#![tactic(auto)]

mod arguments;
mod checks;
mod edges;
mod events;
mod last_arguments;
mod limits;

pub use checks::{check, is_check};
