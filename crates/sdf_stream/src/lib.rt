//! SDF files read entry by entry (IEEE 1497-2001): no more of a file is kept than the tokens at hand.
#![tactic(auto)]

mod lexing;
mod scans;
mod streams;
mod visits;
mod window;

pub use streams::{Stream, open_sdf};
pub use visits::Visit;
