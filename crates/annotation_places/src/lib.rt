//! A circuit's legs, specify paths, timing checks, scopes and variables, found by scopes, names and nets.
#![tactic(auto)]

mod bits;
mod leading;
mod lookups;
mod nets;
mod place_indexes;
mod places;
mod scope_indexes;
mod variable_index;

pub use nets::Role;
pub use places::Places;
