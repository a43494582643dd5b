//! Compiled tables of user-defined primitives.
#![tactic(auto)]

mod building;
mod compiled;
mod digits;
mod marks;
mod paired;
mod pairs;
mod places;
mod searching;
mod table;

pub use table::Table;
