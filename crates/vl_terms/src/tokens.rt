// What stands at a position among the tokens.
ghost use Rattle.std.specs.Prelude.{◌≡◌, ◌<◌, Bool, Option, Some, None, map, option_map, slice_get, length};
ghost use Rattle.grammar.specs.Placed.{place_read};
ghost use Rattle.grammar.specs.Reading.{Gives};
ghost use Rattle.grammar.specs.Rule.{stands};
ghost use Rattle.vl_token.specs.Seen.{lexeme};
ghost use Rattle.vl_tree.specs.Expressions as expressions;
ghost use Rattle.vl_tree.specs.Kinds.{kind_of, is_name, is_symbol, is_word};
ghost use Rattle.vl_tree.specs.Rules as rules;
ghost use Rattle.vl_tree.specs.Seen.{view_name};

use grammar::ReadFault;
use sg_text::{Keyword, Place};
use vl_token::{Symbol, Token, TokenKind};
use vl_tree::{Name, is_pulse_text};

pub fn token_at<'a>(tokens: &[Token<'a>], at: usize) -> Option<Token<'a>>
    ensures { slice_get (map lexeme tokens.now) at ≡ option_map lexeme result }
{
    tokens.get(at).copied()
}

/// Whether a symbol stands there.
pub fn is_mark(tokens: &[Token<'_>], at: usize, symbol: Symbol) -> bool
    ensures { result ≡ stands kind_of (is_symbol symbol) (map lexeme tokens.now) at }
{
    match token_at(tokens, at) {
        Some(
            Token {
                kind: TokenKind::Symbol(other),
                ..
            },
        ) => symbol.number() == other.number(),
        _ => false,
    }
}

/// Whether a word stands there.
pub fn is_word(tokens: &[Token<'_>], at: usize, word: Keyword) -> bool
    ensures { result ≡ stands kind_of (is_word word) (map lexeme tokens.now) at }
{
    match token_at(tokens, at) {
        Some(
            Token {
                kind: TokenKind::Word(other),
                ..
            },
        ) => word.number() == other.number(),
        _ => false,
    }
}

/// The position behind a symbol.
pub fn mark(tokens: &[Token<'_>], at: usize, symbol: Symbol) -> Result<usize, ReadFault>
    ensures { Gives (λ next. (tt, next)) result ((rules.mark symbol).read (map lexeme tokens.now) at) }
{
    match token_at(tokens, at) {
        Some(
            Token {
                kind: TokenKind::Symbol(other),
                ..
            },
        ) if symbol.number() == other.number() => Ok(at + 1),
        _ => Err(ReadFault::At(at)),
    }
}

/// The position behind a word.
pub fn word(tokens: &[Token<'_>], at: usize, word: Keyword) -> Result<usize, ReadFault>
    ensures { Gives (λ next. (tt, next)) result ((rules.word word).read (map lexeme tokens.now) at) }
{
    match token_at(tokens, at) {
        Some(
            Token {
                kind: TokenKind::Word(other),
                ..
            },
        ) if word.number() == other.number() => Ok(at + 1),
        _ => Err(ReadFault::At(at)),
    }
}

/// The place of the token there.
pub fn place_at(tokens: &[Token<'_>], at: usize) -> Result<Place, ReadFault>
    ensures { Gives (λ place. place) result (place_read (λ t. t.place) (slice_get (map lexeme tokens.now) at) at) }
{
    match token_at(tokens, at) {
        Some(token) => Ok(token.place),
        None => Err(ReadFault::At(at)),
    }
}

/// name
#[tactic(auto, unfolding(vl_tree::specs::Expressions::name_parts))]
pub fn name<'a>(tokens: &[Token<'a>], at: usize) -> Result<(Name<'a>, usize), ReadFault>
    ensures { Gives (λ x. (view_name x.0, x.1)) result (expressions.name.read (map lexeme tokens.now) at) }
{
    match token_at(tokens, at) {
        Some(
            Token {
                kind: TokenKind::Name(text),
                place,
            },
        ) if !is_pulse_text(text) => Ok((Name { text, place }, at + 1)),
        _ => Err(ReadFault::At(at)),
    }
}

/// Whether a name stands there.
pub fn is_name(tokens: &[Token<'_>], at: usize) -> bool
    ensures { result ≡ stands kind_of is_name (map lexeme tokens.now) at }
{
    match token_at(tokens, at) {
        Some(
            Token {
                kind: TokenKind::Name(text),
                ..
            },
        ) => !is_pulse_text(text),
        _ => false,
    }
}

/// `[ name ]`
pub fn optional_name<'a>(
    tokens: &[Token<'a>],
    at: usize,
) -> Result<(Option<Name<'a>>, usize), ReadFault>
    ensures { Gives (λ x. (option_map view_name x.0, x.1)) result ((rules.optional expressions.name).read (map lexeme tokens.now) at) }
{
    if !is_name(tokens, at) {
        return Ok((None, at));
    }
    let (found, next) = name(tokens, at)?;
    Ok((Some(found), next))
}
