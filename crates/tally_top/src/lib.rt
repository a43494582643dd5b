//! `top`: from the words of `tally`'s command line to status and report.
#![tactic(auto)]

mod answer;
mod answers;
mod inputs;
mod lines;
mod report;
mod status;
mod system;
mod words;

pub use answer::top;
pub use status::Status;
pub use system::program;
pub use words::Asked;
