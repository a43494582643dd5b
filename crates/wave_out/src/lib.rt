//! The value change dump that a run writes (IEEE 1364-2005, 18.2).
#![tactic(auto)]

mod blocks;
mod changes;
mod header;
mod laws;
mod lines;
mod marks;
mod scopes;
mod shown;
mod variables;
mod words;
mod writer;

pub use laws::{
    calls_of_a_rest_are_its_dump, calls_of_a_run_are_its_dump, nested_texts,
    the_rest_makes_the_whole,
};
pub use words::{push_number, push_signed};
pub use writer::{RestWriter, VcdWriter};
