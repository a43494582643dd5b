//! Expressions of nets and constants, and the gates that have their values.
#![tactic(auto)]

mod gates;
mod making;
mod statements;
mod steps;
mod terms;
mod writing;

pub use gates::{Gate, Kind};
pub use making::gates_of;
pub use statements::push_statements;
pub use terms::{Bitwise, Logical, Operand, Reduction, Term};
pub use writing::{Join, Naming, push_operand};
