//! The reading of SDF files (IEEE 1497-2001).
#![tactic(auto)]

mod cells;
mod checks;
mod depth;
mod entries;
mod faults;
mod files;
mod groups;
mod heads;
mod reading;
mod sdf_files;
mod tails;

pub use cells::{Parts, cell_type, instance};
pub use checks::Checks;
pub use depth::depth_after;
pub use entries::Entries;
pub use faults::SdfKind;
pub use groups::Groups;
pub use heads::{head, head_stands};
pub use reading::read_written;
pub use sdf_files::read_sdf;
