//! The delays and limits of a circuit as an SDF file, by which any tool gives them to its netlist.
#![tactic(auto)]

mod writing;

pub use writing::sdf_text;
pub use written_model::WriteError;
