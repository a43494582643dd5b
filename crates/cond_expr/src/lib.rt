//! Conditions of specify paths and timing checks: their tokens, their trees and their values.
#![tactic(auto)]

mod begun;
mod binding;
mod bound;
mod conditions;
mod copies;
mod expr;
mod faults;
mod joining;
mod laws;
mod operators;
mod reading;
mod same;
mod scan;
mod tokens;
mod tree;
mod values;

pub use binding::{BindFault, Find};
pub use bound::{Bound, Nets};
pub use conditions::Conditions;
pub use copies::owned;
pub use expr::Expr;
pub use faults::CondFault;
pub use laws::{one_condition, one_core, one_failing_token, own_words};
pub use scan::{Phase, after, ended, first_fault, takes_index};
pub use tokens::{Op, Tok};
