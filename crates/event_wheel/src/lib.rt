//! The transitions that drivers have pending, in buckets by time.
#![tactic(auto)]

mod agenda;
mod chains;
mod least;
mod link;
mod links;
mod nodes;
mod places;
mod runs;
mod wheel;

pub use link::Link;
pub use nodes::{Node, Nodes};
pub use wheel::Wheel;
