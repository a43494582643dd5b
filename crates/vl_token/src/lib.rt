//! The tokens of netlists: words, names, numbers, constants, symbols, and where each stands.
#![tactic(auto)]

mod bases;
mod constants;
mod symbols;
mod tokens;

pub use bases::Base;
pub use constants::{Constant, number_of, unsized_bits};
pub use symbols::{Symbol, symbol_of};
pub use tokens::{Mark, Token, TokenKind};
