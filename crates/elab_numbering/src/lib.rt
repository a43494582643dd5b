//! The nets of a circuit by their numbers: what is handed from an instance to those in it, and who drives each.
#![tactic(auto)]

mod driving;
mod handing;

pub use driving::{drive_inputs, drive_outputs, drive_regs};
pub use handing::hand_down;
