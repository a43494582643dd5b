//! The instances of a netlist's tree, their ports, paths and timing checks by their names, and what entries of SDF files are for.
#![tactic(auto)]

mod bits;
mod checks;
mod events;
mod legs;
mod modules;
mod netlists;
mod paths;
mod specify;
mod spots;

pub use checks::{CheckFit, check_fit, is_data_first};
pub use events::{CellCheck, CellEdge, CellEvent};
pub use legs::{is_interconnect, is_port};
pub use modules::Module;
pub use netlists::Netlist;
pub use paths::{PathFit, is_edge, path_fit, reaches};
pub use specify::{CellPath, PathWhen};
pub use spots::{Spot, reach};
