// Readers of delays.
ghost use Rattle.std.specs.Prelude.{◌≡◌, map, option_map};
ghost use Rattle.grammar.specs.Reading.{Gives};
ghost use Rattle.grammar.specs.Rule.{stands};
ghost use Rattle.sg_time.specs.Seen.{number as seen_number};
ghost use Rattle.vl_token.specs.Seen.{lexeme};
ghost use Rattle.vl_tree.specs.Expressions as expressions;
ghost use Rattle.vl_tree.specs.Kinds.{kind_of, is_number};
ghost use Rattle.vl_tree.specs.Rules as rules;
ghost use Rattle.vl_tree.specs.Seen.{view_delay, view_mtm};

use crate::tokens::{is_mark, mark, place_at, token_at};
use grammar::ReadFault;
use sg_time::Decimal;
use std::alloc::Global;
use vl_token::{Symbol, Token, TokenKind};
use vl_tree::{Delay, MinTypMax};

/// Whether a number stands there.
pub fn is_number(tokens: &[Token<'_>], at: usize) -> bool
    ensures { result ≡ stands kind_of is_number (map lexeme tokens.now) at }
{
    matches!(
        token_at(tokens, at),
        Some(Token {
            kind: TokenKind::Number { .. },
            ..
        })
    )
}

#[tactic(auto, unfolding(vl_tree::specs::Expressions::number_parts))]
fn number(tokens: &[Token<'_>], at: usize) -> Result<(Decimal, usize), ReadFault>
    ensures { Gives (λ x. (seen_number x.0, x.1)) result (expressions.number.read (map lexeme tokens.now) at) }
{
    match token_at(tokens, at) {
        Some(
            Token {
                kind: TokenKind::Number { value, .. },
                ..
            },
        ) => Ok((value, at + 1)),
        _ => Err(ReadFault::At(at)),
    }
}

/// `number [ ":" number ":" number ]`
#[tactic(auto, unfolding(vl_tree::specs::Expressions::mtm_parts))]
pub fn min_typ_max(tokens: &[Token<'_>], at: usize) -> Result<(MinTypMax, usize), ReadFault>
    ensures { Gives (λ x. (view_mtm x.0, x.1)) result (expressions.mtm.read (map lexeme tokens.now) at) }
{
    let (min, next) = number(tokens, at)?;
    if !is_mark(tokens, next, Symbol::Colon) {
        return Ok((MinTypMax::One(min), next));
    }
    let (typ, next) = number(tokens, next + 1)?;
    let next = mark(tokens, next, Symbol::Colon)?;
    let (max, next) = number(tokens, next)?;
    Ok((MinTypMax::Three { min, typ, max }, next))
}

/// `mtm [ "," mtm [ "," mtm ] ]`
#[tactic(auto, unfolding(vl_tree::specs::Expressions::mtms_parts))]
fn values(
    alloc: Global,
    tokens: &[Token<'_>],
    at: usize,
) -> Result<(Vec<MinTypMax>, usize), ReadFault>
    ensures { Gives (λ x. (map view_mtm x.0.items, x.1)) result (expressions.mtms.read (map lexeme tokens.now) at) }
{
    let (first, next) = min_typ_max(tokens, at)?;
    if !is_mark(tokens, next, Symbol::Comma) {
        return Ok((vec![in alloc; first]?, next));
    }
    let (second, next) = min_typ_max(tokens, next + 1)?;
    if !is_mark(tokens, next, Symbol::Comma) {
        return Ok((vec![in alloc; first, second]?, next));
    }
    let (third, next) = min_typ_max(tokens, next + 1)?;
    Ok((vec![in alloc; first, second, third]?, next))
}

/// `"#" number | "#" "(" mtm [ "," mtm [ "," mtm ] ] ")"`
#[tactic(auto, unfolding(vl_tree::specs::Expressions::delay_parts))]
fn delay(alloc: Global, tokens: &[Token<'_>], at: usize) -> Result<(Delay, usize), ReadFault>
    ensures { Gives (λ x. (view_delay x.0, x.1)) result (expressions.delay.read (map lexeme tokens.now) at) }
{
    let next = mark(tokens, at, Symbol::Hash)?;
    if is_number(tokens, next) {
        let (value, next) = number(tokens, next)?;
        let place = place_at(tokens, at)?;
        let values = vec![in alloc; MinTypMax::One(value)]?;
        return Ok((Delay { place, values }, next));
    }
    let next = mark(tokens, next, Symbol::LeftParen)?;
    let (values, next) = values(alloc, tokens, next)?;
    let next = mark(tokens, next, Symbol::RightParen)?;
    let place = place_at(tokens, at)?;
    Ok((Delay { place, values }, next))
}

/// `[ delay ]`
pub fn optional_delay(
    alloc: Global,
    tokens: &[Token<'_>],
    at: usize,
) -> Result<(Option<Delay>, usize), ReadFault>
    ensures { Gives (λ x. (option_map view_delay x.0, x.1)) result ((rules.optional expressions.delay).read (map lexeme tokens.now) at) }
{
    if !is_mark(tokens, at, Symbol::Hash) {
        return Ok((None, at));
    }
    let (found, next) = delay(alloc, tokens, at)?;
    Ok((Some(found), next))
}
