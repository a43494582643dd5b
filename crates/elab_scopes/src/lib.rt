//! The scopes of a circuit, and the nets that the stimulus and the timing checks drive.
#![tactic(auto)]

mod bits;
mod driven;
mod here;
mod inputs;
mod places;
mod regs;
mod scope;
mod scopes;
mod variables;

pub use driven::{DrivenNets, input_nets, reg_nets};
pub use scopes::scopes_of;
