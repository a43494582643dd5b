//! Timing checks with limits below 0: the delays of the signals that they see, and the limits that are taken as 0.
#![tactic(auto)]

mod adjusting;
mod counts;
mod groups;
mod laws;
mod pairs;
mod scopes;
mod signals;

pub use adjusting::{Adjustment, LateDelay, adjust, limits_of};
pub use counts::signal_counts;
pub use groups::lates_by_scope;
pub use laws::adjusted_is_one;
