//! A circuit that is open for annotation: its timings, limits and delays can be set, and its parts still fit together.
#![tactic(auto)]

mod opened;

pub use opened::OpenCircuit;
