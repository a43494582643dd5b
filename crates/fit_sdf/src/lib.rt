//! Changes of an SDF file with which it is taken and its entries find their places, and how many do.
#![tactic(auto)]

mod cells;
mod changing;
mod counts;
mod files;
mod fitting;
mod heads;
mod telling;
mod unfit;

pub use counts::{Count, add_counts};
pub use fitting::{FittedSdf, fit_sdf};
pub use telling::push_sdf_counts;
pub use unfit::SdfUnfit;
