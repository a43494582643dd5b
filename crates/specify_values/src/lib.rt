//! The numbers of a module's specify blocks in ticks: specparams, delays of paths, limits of their pulses, and limits of timing checks.
#![tactic(auto)]

mod amounts;
mod check_limits;
mod delays;
mod gathering;
mod items;
mod limits;
mod measures;
mod parameters;
mod port_names;
mod pulses;
mod ticks;

pub use check_limits::{limit_ticks, threshold_ticks};
pub use delays::path_delays;
pub use gathering::block_items;
pub use items::{BlockItems, Parameter, Pulse, StyleText};
pub use limits::{PulseLimits, pulse_limits};
pub use measures::Measure;
pub use parameters::{Parameters, specparam_values, specparams};
