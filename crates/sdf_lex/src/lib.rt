//! The tokens of SDF files, and what their words say.
#![tactic(auto)]

mod bytes;
mod faults;
mod letters;
mod names;
mod operators;
mod pieces;
mod reading;
mod tokens;
mod words;

pub use faults::LexKind;
pub use names::{called, first_part, is_instance_name, is_name};
pub use reading::{lex, lex_piece};
pub use tokens::{Lexeme, Token, before_select};
