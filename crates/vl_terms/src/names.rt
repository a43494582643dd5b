// Readers of names, numbers of bits, and ranges.
ghost use Rattle.std.specs.Prelude.{◌<◌, ◌^◌, IfOk, map};
ghost use Rattle.grammar.specs.Reading.{Gives};
ghost use Rattle.vl_token.specs.Seen.{lexeme};
ghost use Rattle.vl_tree.specs.Expressions as expressions;
ghost use Rattle.vl_tree.specs.Rules as rules;
ghost use Rattle.vl_tree.specs.Seen.{view_name};

use crate::lists::{ListPart, listed};
use crate::tokens::{is_mark, is_name, mark, name, place_at, token_at};
use grammar::ReadFault;
use std::alloc::Global;
use vl_token::{Symbol, Token, TokenKind};
use vl_tree::{Name, Range};

/// A name in a list.
pub struct NamePart;

impl<'a> ListPart<'a> for NamePart {
    type Value = Name<'a>;

    ghost use Rattle.vl_tree.specs.Tree.{Named};
    ghost use Rattle.vl_tree.specs.Expressions as expressions;
    ghost use Rattle.vl_tree.specs.Seen.{view_name};

    ghost Tree = { Named };

    ghost rule = { expressions.name };

    ghost view = { view_name };

    fn begins(tokens: &[Token<'a>], at: usize) -> bool {
        is_name(tokens, at)
    }

    fn read(_: Global, tokens: &[Token<'a>], at: usize) -> Result<(Name<'a>, usize), ReadFault> {
        name(tokens, at)
    }
}

/// `name { "," name }`
#[tactic(auto, using(vl_tree::proofs::Lists::comma_name), unfolding(vl_tree::specs::Expressions::names_parts))]
pub fn names<'a>(
    alloc: Global,
    tokens: &[Token<'a>],
    at: usize,
) -> Result<(Vec<Name<'a>>, usize), ReadFault>
    ensures { Gives (λ x. (map view_name x.0.items, x.1)) result (expressions.names.read (map lexeme tokens.now) at) }
{
    listed::<NamePart>(alloc, tokens, at)
}

/// A number of 1 to 18 digits and nothing else.
fn whole(tokens: &[Token<'_>], at: usize) -> Result<(u64, usize), ReadFault>
    ensures read { Gives (λ x. x) result (expressions.whole.read (map lexeme tokens.now) at) }
    ensures few { IfOk result (λ x. x.0 < 10 ^ 18) }
{
    match token_at(tokens, at) {
        Some(
            Token {
                kind: TokenKind::Number { value, whole: true },
                ..
            },
        ) => Ok((value.digits, at + 1)),
        _ => Err(ReadFault::At(at)),
    }
}

/// `[ "-" ] whole`
#[tactic(auto, unfolding(vl_tree::specs::Expressions::int_parts))]
pub fn int(tokens: &[Token<'_>], at: usize) -> Result<(i64, usize), ReadFault>
    ensures { Gives (λ x. x) result (expressions.int.read (map lexeme tokens.now) at) }
{
    if is_mark(tokens, at, Symbol::Minus) {
        let (size, next) = whole(tokens, at + 1)?;
        return Ok((-(size as i64), next));
    }
    let (size, next) = whole(tokens, at)?;
    Ok((size as i64, next))
}

/// `"[" int ":" int "]"`
#[tactic(auto, unfolding(vl_tree::specs::Expressions::range_parts))]
pub fn range(tokens: &[Token<'_>], at: usize) -> Result<(Range, usize), ReadFault>
    ensures { Gives (λ x. x) result (expressions.range.read (map lexeme tokens.now) at) }
{
    let next = mark(tokens, at, Symbol::LeftBracket)?;
    let (left, next) = int(tokens, next)?;
    let next = mark(tokens, next, Symbol::Colon)?;
    let (right, next) = int(tokens, next)?;
    let next = mark(tokens, next, Symbol::RightBracket)?;
    let place = place_at(tokens, at)?;
    Ok((Range { place, left, right }, next))
}

/// `[ range ]`
pub fn optional_range(tokens: &[Token<'_>], at: usize) -> Result<(Option<Range>, usize), ReadFault>
    ensures { Gives (λ x. x) result ((rules.optional expressions.range).read (map lexeme tokens.now) at) }
{
    if !is_mark(tokens, at, Symbol::LeftBracket) {
        return Ok((None, at));
    }
    let (found, next) = range(tokens, at)?;
    Ok((Some(found), next))
}
