//! What is written as an SDF file, as definitions: the tree of a circuit, the text that spells it, and why one can't be written.
#![tactic(auto)]

mod errors;
mod parts;

pub use errors::WriteError;
pub use parts::Part;
