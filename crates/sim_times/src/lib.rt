//! The simulation of any machine, round by round, time by time, and who is told of it.
#![tactic(auto)]

mod checks;
mod naming;
mod pending;
mod runs;
mod simulated;
mod simulation;
mod steps;
mod times;
mod told;
mod watch;

pub use checks::Checks;
pub use runs::{SimEnd, Times, make_times, make_times_until};
pub use simulation::Simulation;
pub use times::{Rounds, TimeEnd, Turn};
pub use told::Told;
pub use watch::{Quiet, Watch};
