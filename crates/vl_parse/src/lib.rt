//! The reader of netlists: tokens to trees, by the grammar of the crate `vl_tree`.
#![tactic(auto)]

mod connections;
mod declarations;
mod faults;
mod gates;
mod item_parts;
mod items;
mod modules;
mod parsing;

pub use parsing::{ParseKind, parse};
