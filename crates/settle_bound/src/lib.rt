//! How long after a stimulus's last set each net may still change, or a cycle of elements and timing checks.
#![tactic(auto)]

mod cycles;
mod hops;
mod links;
mod orders;
mod rings;
mod settling;
mod terminals;
mod ways;
mod weights;

pub use cycles::is_cycle;
pub use hops::{Hop, driven};
pub use settling::{Settled, settle};
