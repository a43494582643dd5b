//! The specify paths of a circuit: those of each module, and those of each output bit of an instance to which they lead.
#![tactic(auto)]

mod adding;
mod filling;
mod limit;
mod modules;
mod operands;
mod shelving;
mod uses;

pub use adding::{add_paths, row_of};
pub use elab_elements::{
    Library, Placing, Prepared, Ready, Rows, elements_in, library_of, module_at, rows_of,
};
pub use limit::check_count;
pub use modules::{ModulePaths, module_paths};
pub use operands::Operands;
pub use shelving::{ReadyCondition, ReadyOutput, ReadyPath};
