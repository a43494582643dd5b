//! The parts of a netlist: its tokens cut into modules and primitives, and the names that are below a top.
#![tactic(auto)]

mod below;
mod names;
mod parts;
mod tops;
mod webs;
mod wholes;

pub use below::Below;
pub use parts::{Heading, heading_of, headings, part_end};
pub use webs::Web;
pub use wholes::is_whole;
