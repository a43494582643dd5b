//! Sets of names, in which all fronts or all ends of a text are looked up in one walk.
#![tactic(auto)]

mod tries;
mod ways;

pub use tries::Trie;
pub use ways::Way;
