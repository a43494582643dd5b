//! What SDF files mean: their numbers read (IEEE 1497-2001), and the first that is none or the first limits that cross.
#![tactic(auto)]

mod comparing;
mod first_faults;
mod meant_entries;
mod meant_files;
mod numbers;

pub use first_faults::{Valued, file_bad_number, file_crossing};
pub use meant_entries::{add_group, add_part, entry_of, entry_of_check};
pub use meant_files::sdf_of;
