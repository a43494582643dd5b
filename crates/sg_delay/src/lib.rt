//! Delays of transitions and of gates, the limits of their pulses, and the lists that spell them.
#![tactic(auto)]

mod corners;
mod expansion;
mod gates;
mod limits;

pub use corners::{Corner, Triple};
pub use expansion::{DelayError, Delays12, expand};
pub use gates::{GateDelays, gate_delay};
pub use limits::{Limit, Limits12, PulseStyle, Widths};
