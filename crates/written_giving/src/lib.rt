//! Annotation with the tree of a circuit gives the circuit back: proofs alone.
#![tactic(auto)]

mod laws;

pub use laws::tree_gives_back;
