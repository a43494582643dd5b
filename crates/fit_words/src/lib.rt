//! The words of `fit`'s command line, read as what they ask for, or refused.
#![tactic(auto)]

mod arguments;
mod parser;
mod paths;
mod rules;
mod words;

pub use paths::made_name;
pub use words::{Asked, inputs_of, read_words};
