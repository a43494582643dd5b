//! `top` of `why`: from the words of the command line to status and report.
#![tactic(auto)]

mod answer;
mod answers;
mod runs;
mod system;
mod telling;
mod work;

pub use answer::top;
pub use signoff_phases::Status;
pub use system::program;
