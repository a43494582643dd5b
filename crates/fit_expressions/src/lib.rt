//! Expressions of a module as gates and primitives.
#![tactic(auto)]

mod assigns;
mod connections;
mod delays;
mod edits;
mod fresh;
mod primitives;
mod spans;
mod work;

pub use edits::expression_edits;
pub use primitives::primitives_for;
