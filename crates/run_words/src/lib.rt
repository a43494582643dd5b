//! The words of the command line, read as what they ask for, or refused.
#![tactic(auto)]

mod arguments;
mod designs;
mod inputs;
mod numbers;
mod parser;
mod rules;
mod stops;
mod subcommands;
mod words;

pub use arguments::{Argument, read_arguments};
pub use designs::{Design, Writing, design_with};
pub use inputs::{Input, input_of};
pub use numbers::time_within;
pub use rules::{are_sound, netlists_of, value_of};
pub use stops::Stop;
pub use words::{Asked, Command, read_words, rounds_of};
