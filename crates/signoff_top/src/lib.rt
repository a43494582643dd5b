//! `top`: from the words of the command line to status, report and dump.
#![tactic(auto)]

mod answer;
mod bounds;
mod generated;
mod phases;
mod report;
mod stopping;
mod summary;
mod system;
mod work;
mod writing;

pub use answer::top;
pub use signoff_phases::Status;
pub use system::program;
