//! Circuits of netlists have names that lead back, and are settled: proofs alone.
#![tactic(auto)]

mod laws;

pub use laws::netlists_lead_back;
