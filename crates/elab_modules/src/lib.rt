//! The modules and primitives that a top reaches, made ready for their instances, and what is refused in them.
#![tactic(auto)]

mod assignments;
mod checks;
mod connections;
mod delayed;
mod delays;
mod gates;
mod instances;
mod library;
mod members;
mod ports;
mod prepared;
mod primitive_instances;
mod readied;
mod stock;
mod terminals;

pub use elab_lates::{DelayedCopy, PlacedCopy};
pub use gates::output_count;
pub use library::{Library, Ready, library_of};
pub use members::check_members;
pub use prepared::{Prepared, prepare};
pub use readied::{find_module, module_at};
