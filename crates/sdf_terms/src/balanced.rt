// What is passed over: tokens with paired parentheses.
ghost use Rattle.std.specs.Prelude.{◌≡◌, ◌<◌, ◌^◌, ◌==◌, map};
ghost use Rattle.grammar.specs.Reading.{Gives};
ghost use Rattle.sdf_lex.specs.Seen.{lexeme};
ghost use Rattle.sdf_tree.specs.Values as values;
ghost use Rattle.sdf_terms.specs.Balanced.{StepTaken};

use crate::tokens::token_at;
use grammar::ReadFault;
use sdf_lex::{Lexeme, Token};

/// How many parentheses are open behind the token there, if it may stand where so many are.
fn unclosed_behind(tokens: &[Token<'_>], at: usize, unclosed: u64) -> Option<u64>
    requires { unclosed < 2 ^ 63 }
    ensures { StepTaken (map lexeme tokens.now) at unclosed result }
{
    match token_at(tokens, at)?.lexeme {
        Lexeme::UnendedText => None,
        Lexeme::Left => Some(unclosed + 1),
        Lexeme::Right if unclosed == 0 => None,
        Lexeme::Right => Some(unclosed - 1),
        _ => Some(unclosed),
    }
}

/// Whether none is open.
fn ended(unclosed: u64) -> bool
    ensures { result ≡ (unclosed == 0) }
{
    unclosed == 0
}

/// The position behind any tokens with paired parentheses.
#[tactic(auto, unfolding(sdf_tree::specs::Values::balanced_parts))]
pub fn balanced(tokens: &[Token<'_>], at: usize) -> Result<usize, ReadFault>
    ensures { Gives (λ next. (tt, next)) result (values.balanced.read (map lexeme tokens.now) at) }
{
    let mut next = at;
    let mut unclosed = 0u64;
    'more: while let Some(after) = unclosed_behind(tokens, next, unclosed) {
        unclosed = after;
        next += 1;
    }
    if !ended(unclosed) {
        return Err(ReadFault::At(next));
    }
    Ok(next)
}
