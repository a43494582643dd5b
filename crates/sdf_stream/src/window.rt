// A text that is split into tokens while it is read.
ghost use Rattle.std.specs.Prelude.{◌≤◌, ◌+◌, ◌^◌, length};

use sdf_lex::Token;

/// What is left of a text and the byte at which it begins, how many parentheses are open there, and the tokens at hand.
#[derive(Drop)]
pub struct Window<'a> {
    pub at: usize,
    pub rest: &'a [u8],
    pub depth: u64,
    pub tokens: Vec<Token<'a>>,
    ghost few: { at + length rest.now ≤ 2 ^ 28 },
    ghost shallow: { depth ≤ 32 },
}
