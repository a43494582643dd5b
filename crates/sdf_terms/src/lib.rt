//! Readers of the smaller parts of SDF files: values, lists of delays, ports and conditions, by the grammar of the crate `sdf_tree`.
//! Each reads a rule from a position among the tokens on, and gives the value and the position behind it, or the failing token.
#![tactic(auto)]

pub mod balanced;
pub mod conditions;
pub mod lists;
pub mod named;
pub mod parts;
pub mod ports;
pub mod tokens;
pub mod values;
