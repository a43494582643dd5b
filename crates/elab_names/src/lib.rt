//! What is refused in the names that the modules of a netlist declare: names that stand twice or have two ranges, and vectors that are too wide.
#![tactic(auto)]

mod bounds;
mod checks;
mod declarations;
mod instances;
mod ranges;
mod repeated;

pub use bounds::{first_differing, first_too_wide};
pub use checks::{check_among, check_names, check_once};
pub use declarations::check_declarations;
pub use instances::instance_names;
pub use ranges::{NamedRange, named_ranges};
pub use repeated::{first_missing, first_repeated};
