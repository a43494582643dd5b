//! The texts of the generated case of so many stages: a chain of inverters, their delays, and a pulse through them.
#![tactic(auto)]

mod case;
mod netlist;
mod numbers;
mod sdf;
mod stimulus;

pub use case::{GeneratedCase, gen_case};
