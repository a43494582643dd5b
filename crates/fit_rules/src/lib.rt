//! The rules by which the parts of a netlist are changed into what is taken.
#![tactic(auto)]

mod covering;
mod editing;
mod ends;
mod exact;
mod ifnone;
mod leaving;
mod merging;
mod parts;
mod statements;

pub use parts::{change_all, leave_out};
