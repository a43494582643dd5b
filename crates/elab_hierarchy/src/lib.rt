//! The hierarchy of a netlist: its definitions by name, its top, and all instances below the top.
#![tactic(auto)]

mod children;
mod definitions;
mod instances;
mod ticks;
mod tops;

pub use definitions::Definitions;
pub use instances::{Placed, place_instances};
pub use ticks::tick;
pub use tops::top;
