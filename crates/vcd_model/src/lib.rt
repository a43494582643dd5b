//! A value change dump as the stimulus of a circuit, as definitions, and why one is refused (IEEE 1364-2005, 18.2).
#![tactic(auto)]

mod kinds;

pub use kinds::VcdKind;
