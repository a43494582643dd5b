//! What a module has, made ready for its instances: its members in a row, and the table of its variables.
#![tactic(auto)]

mod member_list;
mod naming;
mod rows;
mod tables;

pub use member_list::{Member, members};
pub use tables::{Row, Table};
