//! Constant expressions of a module, and the values that take their place.
#![tactic(auto)]

mod arithmetic;
mod asks;
mod brackets;
mod limits;
mod machine;
mod numbers;
mod params;
mod values;

pub use arithmetic::{delay_asks, gate_delay_asks};
pub use asks::{Ask, View};
pub use brackets::bracket_asks;
pub use limits::check_asks;
pub use numbers::Number;
pub use params::{parameter_asks, specparam_asks};
pub use values::{Value, Values, value_of, values_of};
