//! What the ports of an instance are connected to, bit by bit, and the constants among it.
#![tactic(auto)]

mod bound;
mod constants;
mod room;

pub use bound::bound_bits;
pub use constants::{PortConstant, port_constants};
