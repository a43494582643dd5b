//! Why a circuit can't be written as an SDF file that gives it back: the faults of its scopes.
#![tactic(auto)]

mod ambiguities;
mod classes;
mod codes;
mod depths;
mod keys;
mod precisions;
mod refusing;
mod sizes;
mod weights;

pub use refusing::refuse;
