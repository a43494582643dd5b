// What stands at a position among the tokens.
ghost use Rattle.std.specs.Prelude.{◌≡◌, Ok, map, slice_get};
ghost use Rattle.std.specs.Option.{option_map};
ghost use Rattle.grammar.specs.Placed.{place_read};
ghost use Rattle.grammar.specs.Reading.{Gives};
ghost use Rattle.grammar.specs.Rule.{stands};
ghost use Rattle.sdf_lex.specs.Seen.{lexeme};
ghost use Rattle.sdf_tree.specs.Kinds as kinds;
ghost use Rattle.sdf_tree.specs.Kinds.{kind_of};
ghost use Rattle.sdf_tree.specs.Rules as rules;
ghost use Rattle.sdf_tree.specs.Values as values;
ghost use Rattle.sdf_terms.specs.Tokens.{word_there};

use grammar::ReadFault;
use sdf_lex::{Lexeme, Token};
use sdf_tree::Keyword;
use sg_text::Place;

pub fn token_at<'a>(tokens: &[Token<'a>], at: usize) -> Option<Token<'a>>
    ensures { slice_get (map lexeme tokens.now) at ≡ option_map lexeme result }
{
    tokens.get(at).copied()
}

/// The place of the token there.
pub fn place_at(tokens: &[Token<'_>], at: usize) -> Result<Place, ReadFault>
    ensures { Gives (λ place. place) result (place_read (λ t. t.place) (slice_get (map lexeme tokens.now) at) at) }
{
    match token_at(tokens, at) {
        Some(token) => Ok(token.place()),
        None => Err(ReadFault::At(at)),
    }
}

/// Whether an opening parenthesis stands there.
pub fn is_left(tokens: &[Token<'_>], at: usize) -> bool
    ensures { result ≡ stands kind_of kinds.is_left (map lexeme tokens.now) at }
{
    matches!(
        token_at(tokens, at),
        Some(Token {
            lexeme: Lexeme::Left,
            ..
        })
    )
}

/// The position behind an opening parenthesis.
pub fn left(tokens: &[Token<'_>], at: usize) -> Result<usize, ReadFault>
    ensures { Gives (λ next. (tt, next)) result ((rules.mark kinds.is_left).read (map lexeme tokens.now) at) }
{
    match token_at(tokens, at) {
        Some(
            Token {
                lexeme: Lexeme::Left,
                ..
            },
        ) => Ok(at + 1),
        _ => Err(ReadFault::At(at)),
    }
}

/// The position behind a closing parenthesis.
pub fn right(tokens: &[Token<'_>], at: usize) -> Result<usize, ReadFault>
    ensures { Gives (λ next. (tt, next)) result ((rules.mark kinds.is_right).read (map lexeme tokens.now) at) }
{
    match token_at(tokens, at) {
        Some(
            Token {
                lexeme: Lexeme::Right,
                ..
            },
        ) => Ok(at + 1),
        _ => Err(ReadFault::At(at)),
    }
}

/// Whether a colon stands there.
pub fn is_colon(tokens: &[Token<'_>], at: usize) -> bool
    ensures { result ≡ stands kind_of kinds.is_colon (map lexeme tokens.now) at }
{
    matches!(
        token_at(tokens, at),
        Some(Token {
            lexeme: Lexeme::Colon,
            ..
        })
    )
}

/// The position behind a colon.
pub fn colon(tokens: &[Token<'_>], at: usize) -> Result<usize, ReadFault>
    ensures { Gives (λ next. (tt, next)) result ((rules.mark kinds.is_colon).read (map lexeme tokens.now) at) }
{
    match token_at(tokens, at) {
        Some(
            Token {
                lexeme: Lexeme::Colon,
                ..
            },
        ) => Ok(at + 1),
        _ => Err(ReadFault::At(at)),
    }
}

/// Whether a text stands there.
pub fn is_text(tokens: &[Token<'_>], at: usize) -> bool
    ensures { result ≡ stands kind_of kinds.is_text (map lexeme tokens.now) at }
{
    matches!(
        token_at(tokens, at),
        Some(Token {
            lexeme: Lexeme::Text(_),
            ..
        })
    )
}

/// A text.
#[tactic(auto, unfolding(sdf_tree::specs::Values::text_parts))]
pub fn text<'a>(tokens: &[Token<'a>], at: usize) -> Result<(&'a [u8], usize), ReadFault>
    ensures { Gives (λ x. (x.0.now, x.1)) result (values.text.read (map lexeme tokens.now) at) }
{
    match token_at(tokens, at) {
        Some(
            Token {
                lexeme: Lexeme::Text(text),
                ..
            },
        ) => Ok((text, at + 1)),
        _ => Err(ReadFault::At(at)),
    }
}

/// Whether a bit select stands there.
pub fn is_select(tokens: &[Token<'_>], at: usize) -> bool
    ensures { result ≡ stands kind_of kinds.is_select (map lexeme tokens.now) at }
{
    matches!(
        token_at(tokens, at),
        Some(Token {
            lexeme: Lexeme::Select(_),
            ..
        })
    )
}

/// `[ select ]`
pub fn optional_select(tokens: &[Token<'_>], at: usize) -> (Option<i64>, usize)
    ensures { (rules.optional (rules.token (λ t. kinds.select_of t.meaning) kinds.is_select)).read (map lexeme tokens.now) at ≡ Ok result }
{
    match token_at(tokens, at) {
        Some(
            Token {
                lexeme: Lexeme::Select(bit),
                ..
            },
        ) => (Some(bit), at + 1),
        _ => (None, at),
    }
}

/// Whether a star stands there.
pub fn is_star(tokens: &[Token<'_>], at: usize) -> bool
    ensures { result ≡ stands kind_of kinds.is_star (map lexeme tokens.now) at }
{
    matches!(
        token_at(tokens, at),
        Some(Token {
            lexeme: Lexeme::Star,
            ..
        })
    )
}

/// The word of the grammar that stands there.
pub fn keyword_at(tokens: &[Token<'_>], at: usize) -> Option<Keyword>
    ensures { result ≡ word_there (slice_get (map lexeme tokens.now) at) }
{
    match token_at(tokens, at) {
        Some(
            Token {
                lexeme: Lexeme::Word(text),
                ..
            },
        ) => Keyword::of(text),
        _ => None,
    }
}

/// Whether a word of the grammar stands there.
#[tactic(auto, using(sdf_tree::proofs::KeywordLaws::spelled_is))]
pub fn is_word(tokens: &[Token<'_>], at: usize, word: Keyword) -> bool
    ensures { result ≡ stands kind_of (kinds.is_word word) (map lexeme tokens.now) at }
{
    match token_at(tokens, at) {
        Some(
            Token {
                lexeme: Lexeme::Word(text),
                ..
            },
        ) => word.is_spelled(text),
        _ => false,
    }
}

/// The position behind a word of the grammar.
#[tactic(auto, using(crate::proofs::Marks::mark_stands, crate::proofs::Marks::mark_fails))]
pub fn word(tokens: &[Token<'_>], at: usize, word: Keyword) -> Result<usize, ReadFault>
    ensures { Gives (λ next. (tt, next)) result ((rules.word word).read (map lexeme tokens.now) at) }
{
    if !is_word(tokens, at, word) {
        return Err(ReadFault::At(at));
    }
    Ok(at + 1)
}
