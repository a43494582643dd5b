//! The bits of a module's expressions, as places in the row of bits of its table, and what is wrong with an expression.
#![tactic(auto)]

mod adding;
mod bits;
mod faults;
mod positions;
mod spans;

pub use bits::{Bit, add_bits, add_variable};
pub use faults::check_expression;
pub use positions::{index_at, position_at};
