//! Expressions read from the tokens of a module.
#![tactic(auto)]

mod bits;
mod folding;
mod opens;
mod reading;
mod scope;
mod stop;

pub use bits::net_bits;
pub use reading::read_term;
pub use scope::{Scope, has_signs, is_left, is_plain};
pub use stop::Stop;
