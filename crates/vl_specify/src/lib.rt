//! The reader of specify blocks: tokens to trees, by the grammar of the crate `vl_tree`, and why a block is refused. Its timing
//! checks are read by the crate `vl_checks`.
#![tactic(auto)]

mod blocks;
mod delays;
mod edges;
mod ends;
mod faults;
mod items;
mod paths;
mod reading;
mod specparams;
mod terms;

pub use blocks::block;
pub use faults::{SpecifyKind, kind_at};
pub use reading::{SpecifyRead, read_specify};
