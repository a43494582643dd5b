//! A written SDF file is read as the tree of its circuit: proofs alone.
#![tactic(auto)]

mod laws;

pub use laws::text_is_read_back;
