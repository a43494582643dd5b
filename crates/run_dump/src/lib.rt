//! A run and its value change dump, whole, up to a stop or from a moment on, with what is pending in an event wheel.
#![tactic(auto)]

mod run;
mod stops;

pub use run::{QuietEnd, RunEnd, run_and_dump, run_quietly};
pub use stops::{Reached, StopEnd, resume_and_dump, stop_and_dump};
