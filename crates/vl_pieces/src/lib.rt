//! The pieces that a netlist's text is split into, and what each is as a token.
#![tactic(auto)]

mod bytes;
mod constants;
mod meanings;
mod modes;
mod numbers;
mod pieces;

pub use bytes::{is_among, is_blank, is_word, name_len};
pub use meanings::{behind_first, kind_of};
pub use modes::{Mode, first_piece};
pub use pieces::Class;
