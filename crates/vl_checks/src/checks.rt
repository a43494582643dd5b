// Readers of timing checks.
ghost use Rattle.std.specs.Prelude.{◌≡◌, map};
ghost use Rattle.grammar.specs.Reading.{Gives};
ghost use Rattle.grammar.specs.Rule.{stands};
ghost use Rattle.vl_token.specs.Seen.{lexeme};
ghost use Rattle.vl_tree.specs.Checks as checks;
ghost use Rattle.vl_tree.specs.Kinds.{kind_of, is_check};
ghost use Rattle.vl_tree.specs.Seen.{view_check};

use crate::arguments::arguments_of;
use grammar::ReadFault;
use sg_text::Place;
use std::alloc::Global;
use vl_terms::tokens::{mark, place_at, token_at};
use vl_token::{Symbol, Token, TokenKind};
use vl_tree::{Check, CheckName, check_of};

/// `"(" arguments ")"`
#[tactic(auto, unfolding(vl_tree::specs::Checks::arguments_parts))]
fn arguments<'a>(
    alloc: Global,
    tokens: &[Token<'a>],
    at: usize,
    limited: bool,
    place: Place,
    name: CheckName,
) -> Result<(Check<'a>, usize), ReadFault>
    ensures { Gives (λ x. (view_check x.0, x.1)) result ((checks.arguments limited place name).read (map lexeme tokens.now) at) }
{
    let next = mark(tokens, at, Symbol::LeftParen)?;
    let (check, next) = arguments_of(alloc, tokens, next, limited, place, name)?;
    let next = mark(tokens, next, Symbol::RightParen)?;
    Ok((check, next))
}

/// A check's name.
fn check_name(tokens: &[Token<'_>], at: usize) -> Result<(CheckName, usize), ReadFault>
    ensures { Gives (λ x. x) result (checks.check_name.read (map lexeme tokens.now) at) }
{
    match token_at(tokens, at) {
        Some(
            Token {
                kind: TokenKind::System(text),
                ..
            },
        ) => match check_of(text) {
            Some(name) => Ok((name, at + 1)),
            None => Err(ReadFault::At(at)),
        },
        _ => Err(ReadFault::At(at)),
    }
}

/// `name "(" arguments ")"`
#[tactic(auto, unfolding(vl_tree::specs::Checks::check_parts))]
pub fn check<'a>(
    alloc: Global,
    tokens: &[Token<'a>],
    at: usize,
    limited: bool,
) -> Result<(Check<'a>, usize), ReadFault>
    ensures { Gives (λ x. (view_check x.0, x.1)) result ((checks.check limited).read (map lexeme tokens.now) at) }
{
    let (name, next) = check_name(tokens, at)?;
    let place = place_at(tokens, at)?;
    arguments(alloc, tokens, next, limited, place, name)
}

/// Whether a check's name stands there.
pub fn is_check(tokens: &[Token<'_>], at: usize) -> bool
    ensures { result ≡ stands kind_of is_check (map lexeme tokens.now) at }
{
    match token_at(tokens, at) {
        Some(
            Token {
                kind: TokenKind::System(text),
                ..
            },
        ) => check_of(text).is_some(),
        _ => false,
    }
}
