//! The legs, specify paths and timing checks that an entry of an SDF file is for.
#![tactic(auto)]

mod candidates;
mod checks;
mod finding;
mod legs;
mod marks;
mod ports;
mod sought;
mod spots;
mod terminals;

pub use finding::{find_checks, find_spots};
