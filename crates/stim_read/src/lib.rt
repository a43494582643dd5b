//! Reads a stimulus: what a text says is applied to the inputs of a circuit.
#![tactic(auto)]

mod bits;
mod forms;
mod inputs;
mod kinds;
mod lines;
mod reading;
mod sets;
mod statements;
mod steps;
mod times;
mod top_inputs;

pub use inputs::nets_of;
pub use kinds::StimKind;
pub use reading::read_stim;
pub use top_inputs::Inputs;
