//! What is written in the place of an entry of an SDF file, with which it is taken and finds its place in a netlist.
#![tactic(auto)]

mod buses;
mod entries;
mod halves;
mod notes;
mod pairs;
mod places;
mod stamps;

pub use entries::{Work, note_exponent, work_of};
pub use notes::{Note, add_note};
pub use pairs::join_pairs;
pub use places::{Scope, Settled};
