//! Tokens and directives of a netlist's text.
#![tactic(auto)]

mod applying;
mod branches;
mod directives;
mod faults;
mod laws;
mod lexer;
mod macros;
mod mode_changes;
mod origins;
mod piece_faults;
mod reading;
mod room;
mod scales;
mod stepping;

pub use faults::LexKind;
pub use laws::{
    macro_use, one_outcome, plain_file, some_outcome, taken_branch, taken_text, untaken_piece,
};
pub use reading::lex;
