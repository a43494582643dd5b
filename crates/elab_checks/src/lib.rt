//! The timing checks of a circuit: those of each instance's module, over the instance's nets.
#![tactic(auto)]

mod modules;
mod shelving;
mod uses;

pub use elab_paths::{
    Library, Placing, Rows, add_paths, elements_in, library_of, module_paths, rows_of,
};
pub use modules::{ReadyChecks, ready_checks};
pub use shelving::{ReadyCheck, ReadyEvent};
pub use uses::{CheckTables, circuit_checks};
