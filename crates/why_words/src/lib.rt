//! The words of `why`'s command line, read as what they ask for, or refused.
#![tactic(auto)]

mod questions;
mod words;

pub use questions::Question;
pub use words::{Asked, read_words};
