//! From the files of a netlist to changes with which they are taken, or the places that no change helps.
#![tactic(auto)]

mod changing;
mod checking;
mod faults;
mod fitting;
mod looking;
mod reading;
mod refusing;
mod rounds;

pub use faults::FitError;
pub use fitting::{Fitted, fit_netlist};
