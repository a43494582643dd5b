//! What each scope of a circuit has to write, and the parts of its keys.
#![tactic(auto)]

mod conditions;
mod groups;
mod keys;

pub use conditions::bare;
pub use groups::{Groups, groups_of};
pub use keys::{edge_of, limits_of};
