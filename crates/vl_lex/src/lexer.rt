// What is known of the texts so far: the state of the directives, and the tokens.
use crate::branches::Branch;
use crate::directives::Waiting;
use crate::macros::Macros;
use std::alloc::Global;
use vl_pieces::Mode;
use vl_token::{Mark, Token};

/// What is known of the texts so far: the innermost branch comes last.
#[derive(Drop)]
pub struct Lexer<'a> {
    pub alloc: Global,
    pub mode: Mode,
    pub waiting: Option<Waiting<'a>>,
    pub macros: Macros<'a>,
    pub branches: Vec<Branch>,
    pub mark: Mark,
    pub tokens: Vec<Token<'a>>,
}
