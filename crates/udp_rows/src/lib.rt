//! The rows of user-defined primitives: what is refused, and what they mean.
#![tactic(auto)]

mod cells;
mod checking;
mod clashes;
mod faults;
mod meaning;
mod symbols;
mod udp;

pub use cells::{Cell, Cells, RawRow};
pub use faults::UdpKind;
pub use meaning::{input_stays, value_of_input, value_when_taken};
pub use udp::UdpRows;
