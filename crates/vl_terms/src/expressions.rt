// Readers of expressions.
ghost use Rattle.std.specs.Prelude.{◌≡◌, map, option_map};
ghost use Rattle.grammar.specs.Reading.{Gives};
ghost use Rattle.grammar.specs.Rule.{stands};
ghost use Rattle.vl_token.specs.Seen.{lexeme};
ghost use Rattle.vl_tree.specs.Expressions as expressions;
ghost use Rattle.vl_tree.specs.Expressions.{expression_starts};
ghost use Rattle.vl_tree.specs.Kinds.{kind_of, is_sized};
ghost use Rattle.vl_tree.specs.Rules as rules;
ghost use Rattle.vl_tree.specs.Seen.{view_expression};

use crate::names::int;
use crate::tokens::{is_mark, is_name, mark, name, place_at, token_at};
use grammar::ReadFault;
use std::alloc::Global;
use vl_token::{Symbol, Token, TokenKind};
use vl_tree::{Expression, Select};

// How deep braces may nest.
const MAX_BRACES: u32 = 64;

/// `"[" int "]" | "[" int ":" int "]"`
#[tactic(auto, unfolding(vl_tree::specs::Expressions::select_parts))]
fn select(tokens: &[Token<'_>], at: usize) -> Result<(Select, usize), ReadFault>
    ensures { Gives (λ x. x) result (expressions.select.read (map lexeme tokens.now) at) }
{
    let next = mark(tokens, at, Symbol::LeftBracket)?;
    let (left, next) = int(tokens, next)?;
    if is_mark(tokens, next, Symbol::RightBracket) {
        return Ok((Select::Bit(left), next + 1));
    }
    let next = mark(tokens, next, Symbol::Colon)?;
    let (right, next) = int(tokens, next)?;
    let next = mark(tokens, next, Symbol::RightBracket)?;
    Ok((Select::Part { left, right }, next))
}

/// `[ select ]`
pub fn optional_select(
    tokens: &[Token<'_>],
    at: usize,
) -> Result<(Option<Select>, usize), ReadFault>
    ensures { Gives (λ x. x) result ((rules.optional expressions.select).read (map lexeme tokens.now) at) }
{
    if !is_mark(tokens, at, Symbol::LeftBracket) {
        return Ok((None, at));
    }
    let (found, next) = select(tokens, at)?;
    Ok((Some(found), next))
}

/// `name [ select ]`
#[tactic(auto, unfolding(vl_tree::specs::Expressions::signal_parts))]
fn signal<'a>(tokens: &[Token<'a>], at: usize) -> Result<(Expression<'a>, usize), ReadFault>
    ensures { Gives (λ x. (view_expression x.0, x.1)) result (expressions.signal_rule.read (map lexeme tokens.now) at) }
{
    let (name, next) = name(tokens, at)?;
    let (select, next) = optional_select(tokens, next)?;
    Ok((Expression::Signal { name, select }, next))
}

/// Whether a constant with a width stands there.
fn is_sized(tokens: &[Token<'_>], at: usize) -> bool
    ensures { result ≡ stands kind_of is_sized (map lexeme tokens.now) at }
{
    matches!(
        token_at(tokens, at),
        Some(Token {
            kind: TokenKind::Sized(_),
            ..
        })
    )
}

/// A constant with a width.
#[tactic(auto, unfolding(vl_tree::specs::Expressions::sized_parts))]
fn sized<'a>(tokens: &[Token<'a>], at: usize) -> Result<(Expression<'a>, usize), ReadFault>
    ensures { Gives (λ x. (view_expression x.0, x.1)) result (expressions.sized_rule.read (map lexeme tokens.now) at) }
{
    match token_at(tokens, at) {
        Some(
            Token {
                kind: TokenKind::Sized(value),
                place,
            },
        ) => Ok((Expression::Sized { place, value }, at + 1)),
        _ => Err(ReadFault::At(at)),
    }
}

/// `name [ select ] | sized | "{" expression { "," expression } "}"`, with braces at most so deep.
#[cycle(expression)]
#[tactic(auto, unfolding(vl_tree::specs::Expressions::expression_parts))]
fn expression_to<'a>(
    alloc: Global,
    tokens: &[Token<'a>],
    at: usize,
    depth: u32,
) -> Result<(Expression<'a>, usize), ReadFault>
    ensures { Gives (λ x. (view_expression x.0, x.1)) result ((expressions.expression_to depth).read (map lexeme tokens.now) at) }
{
    if is_name(tokens, at) {
        return signal(tokens, at);
    }
    if is_sized(tokens, at) {
        return sized(tokens, at);
    }
    if depth == 0 || !is_mark(tokens, at, Symbol::LeftBrace) {
        return Err(ReadFault::At(at));
    }
    let next = mark(tokens, at, Symbol::LeftBrace)?;
    let (parts, next) = expressions_to(alloc, tokens, next, depth - 1)?;
    let next = mark(tokens, next, Symbol::RightBrace)?;
    let place = place_at(tokens, at)?;
    Ok((Expression::Concatenation { place, parts }, next))
}

/// `expression { "," expression }`
#[cycle(expression)]
fn expressions_to<'a>(
    alloc: Global,
    tokens: &[Token<'a>],
    at: usize,
    depth: u32,
) -> Result<(Vec<Expression<'a>>, usize), ReadFault>
    ensures { Gives (λ x. (map view_expression x.0.items, x.1)) result ((rules.listed (expressions.expression_to depth)).read (map lexeme tokens.now) at) }
{
    let (first, mut next) = expression_to(alloc, tokens, at, depth)?;
    let mut parts = Vec::with_capacity(alloc, 1)?;
    parts.push(first)?;
    'more: while is_mark(tokens, next, Symbol::Comma) {
        let (part, after) = expression_to(alloc, tokens, next + 1, depth)?;
        parts.push(part)?;
        next = after;
    }
    parts.shrink_to_fit();
    Ok((parts, next))
}

/// Whether an expression begins there.
pub fn expression_stands(tokens: &[Token<'_>], at: usize) -> bool
    ensures { result ≡ stands kind_of expression_starts (map lexeme tokens.now) at }
{
    is_name(tokens, at) || is_sized(tokens, at) || is_mark(tokens, at, Symbol::LeftBrace)
}

/// An expression, with braces at most 64 deep.
pub fn expression<'a>(
    alloc: Global,
    tokens: &[Token<'a>],
    at: usize,
) -> Result<(Expression<'a>, usize), ReadFault>
    ensures { Gives (λ x. (view_expression x.0, x.1)) result (expressions.expression.read (map lexeme tokens.now) at) }
{
    expression_to(alloc, tokens, at, MAX_BRACES)
}

/// `expression { "," expression }`
pub fn expressions<'a>(
    alloc: Global,
    tokens: &[Token<'a>],
    at: usize,
) -> Result<(Vec<Expression<'a>>, usize), ReadFault>
    ensures { Gives (λ x. (map view_expression x.0.items, x.1)) result ((rules.listed expressions.expression).read (map lexeme tokens.now) at) }
{
    expressions_to(alloc, tokens, at, MAX_BRACES)
}

/// `[ expression ]`
pub fn optional_expression<'a>(
    alloc: Global,
    tokens: &[Token<'a>],
    at: usize,
) -> Result<(Option<Expression<'a>>, usize), ReadFault>
    ensures { Gives (λ x. (option_map view_expression x.0, x.1)) result ((rules.optional expressions.expression).read (map lexeme tokens.now) at) }
{
    if !expression_stands(tokens, at) {
        return Ok((None, at));
    }
    let (found, next) = expression(alloc, tokens, at)?;
    Ok((Some(found), next))
}
