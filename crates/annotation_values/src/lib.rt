//! What an entry of an SDF file makes of one path, leg or timing check, in ticks.
#![tactic(auto)]

mod bounds;
mod changes;
mod entries;
mod grids;
mod limits;
mod lists;
mod pulses;
mod spreading;
mod values;

pub use bounds::Bounds;
pub use changes::{Transition, change_at, changed, set_transition, transition_at};
pub use entries::apply_entry;
pub use grids::Grid;
pub use limits::{apply_check, limits_for, with_limits};
pub use lists::change_list;
pub use pulses::{with_percents, with_pulses};
pub use spreading::with_list;
pub use values::{TooLarge, both, chosen, chosen_limits, ticks};
