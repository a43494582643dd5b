//! The texts of a netlist with their directives and macros worked out, as far as they aren't taken as they are
//! (IEEE 1364-2005, clause 19).
#![tactic(auto)]

mod bringing;
mod changing;
mod defining;
mod describing;
mod expanding;
mod files;
mod given;
mod including;
mod reader;
mod sources;
mod telling;

pub use expanding::expand;
pub use given::{Expansion, Found, Given, Included};
