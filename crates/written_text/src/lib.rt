//! The text of a written SDF file, scope after scope.
#![tactic(auto)]

mod cells;
mod checks;
mod conditions;
mod delays;
mod instances;
mod pages;
mod places;
mod scopes;
mod words;

pub use scopes::written;
