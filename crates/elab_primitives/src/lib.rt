//! User-defined primitives made ready for their instances, and the delays of gates in ticks.
#![tactic(auto)]

mod declarations;
mod declared;
mod delays;
mod names;
mod primitives;

pub use delays::gate_delays;
pub use primitives::check_primitive;
