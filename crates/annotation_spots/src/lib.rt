//! The legs and specify paths of a circuit, numbered in the order of its elements.
#![tactic(auto)]

mod numbering;
mod spots;

pub use numbering::{Numbering, number};
pub use spots::Spot;
