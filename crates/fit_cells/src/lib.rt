//! The modules and primitives of a netlist: their ports, and what drives their nets.
#![tactic(auto)]

mod cells;
mod drivers;
mod facts;
mod links;

pub use cells::{Cell, Cells, Port};
pub use drivers::{Drivers, drivers_of, net_names};
pub use facts::cells_of;
