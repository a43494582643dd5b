// Readers of what stands before the cells of a file.
ghost use Rattle.std.specs.Prelude.{◌≡◌, ◌≤◌, ◌≤ℤ◌, pos, false, IfSome, is_some, map};
ghost use Rattle.std.specs.Option.{option_map};
ghost use Rattle.grammar.specs.Reading.{Gives};
ghost use Rattle.grammar.specs.Rule.{stands};
ghost use Rattle.sdf_lex.specs.Seen.{lexeme};
ghost use Rattle.sdf_tree.specs.Files as files;
ghost use Rattle.sdf_tree.specs.Kinds as kinds;
ghost use Rattle.sdf_tree.specs.Kinds.{kind_of};
ghost use Rattle.sdf_tree.specs.Rules as rules;
ghost use Rattle.sdf_tree.specs.Seen.{view_head};
ghost use Rattle.sdf_terms.specs.Tokens.{found};

use grammar::ReadFault;
use sdf_lex::{Lexeme, Token};
use sdf_terms::tokens::{is_word, keyword_at, text, token_at, word};
use sdf_terms::values::optional_numbers;
use sdf_tree::{Divider, Keyword, WrittenHead, joined_unit, scale_power, scaled, unit_of};
use sg_time::Unit;

fn is_text_word(word: Keyword) -> bool
    ensures { result ≡ kinds.is_text_word word }
{
    matches!(
        word,
        Keyword::SdfVersion
            | Keyword::Design
            | Keyword::Date
            | Keyword::Vendor
            | Keyword::Program
            | Keyword::Version
            | Keyword::Process
    )
}

fn is_value_word(word: Keyword) -> bool
    ensures { result ≡ kinds.is_value_word word }
{
    matches!(word, Keyword::Voltage | Keyword::Temperature)
}

/// Whether the word of a head with a text stands there.
#[tactic(auto, using(sdf_terms::proofs::Marks::that_stands))]
fn text_head_stands(tokens: &[Token<'_>], at: usize) -> bool
    ensures { result ≡ stands kind_of (kinds.is_word_that kinds.is_text_word) (map lexeme tokens.now) at }
{
    match keyword_at(tokens, at) {
        Some(word) => is_text_word(word),
        None => false,
    }
}

/// Whether the word of a head with a value stands there.
#[tactic(auto, using(sdf_terms::proofs::Marks::that_stands))]
fn value_head_stands(tokens: &[Token<'_>], at: usize) -> bool
    ensures { result ≡ stands kind_of (kinds.is_word_that kinds.is_value_word) (map lexeme tokens.now) at }
{
    match keyword_at(tokens, at) {
        Some(word) => is_value_word(word),
        None => false,
    }
}

/// Whether a head stands there.
pub fn head_stands(tokens: &[Token<'_>], at: usize) -> bool
    ensures { result ≡ stands kind_of files.head_starts (map lexeme tokens.now) at }
{
    text_head_stands(tokens, at)
        || is_word(tokens, at, Keyword::Divider)
        || is_word(tokens, at, Keyword::TimeScale)
        || value_head_stands(tokens, at)
}

/// `"." | "/"`
fn divider(tokens: &[Token<'_>], at: usize) -> Result<(Divider, usize), ReadFault>
    ensures { Gives (λ x. x) result ((rules.token (λ t. kinds.divider_word t.meaning) kinds.is_divider).read (map lexeme tokens.now) at) }
{
    match token_at(tokens, at) {
        Some(
            Token {
                lexeme: Lexeme::Word(text),
                ..
            },
        ) => match Divider::of(text) {
            Some(divider) => Ok((divider, at + 1)),
            None => Err(ReadFault::At(at)),
        },
        _ => Err(ReadFault::At(at)),
    }
}

/// The power of ten of the number that stands there.
fn scale_at(tokens: &[Token<'_>], at: usize) -> Option<u8>
    ensures read { (rules.token (λ t. kinds.scale_word t.meaning) kinds.is_scale).read (map lexeme tokens.now) at ≡ found result at }
    ensures stands { stands kind_of kinds.is_scale (map lexeme tokens.now) at ≡ is_some result }
    ensures few { IfSome result (λ n. n ≤ 2) }
{
    match token_at(tokens, at) {
        Some(
            Token {
                lexeme: Lexeme::Word(text),
                ..
            },
        ) => scale_power(text),
        _ => None,
    }
}

/// The unit that stands there.
fn unit_at(tokens: &[Token<'_>], at: usize) -> Option<Unit>
    ensures read { (rules.token (λ t. kinds.unit_word t.meaning) kinds.is_unit).read (map lexeme tokens.now) at ≡ found (option_map (λ u. u.power) result) at }
    ensures at_most { IfSome result (λ u. u.power ≤ℤ pos 0) }
{
    match token_at(tokens, at) {
        Some(
            Token {
                lexeme: Lexeme::Word(text),
                ..
            },
        ) => unit_of(text),
        _ => None,
    }
}

/// A number and a unit in one word, where no number stands alone.
fn joined_at(tokens: &[Token<'_>], at: usize) -> Option<Unit>
    requires { stands kind_of kinds.is_scale (map lexeme tokens.now) at ≡ false }
    ensures { (rules.token (λ t. kinds.joined_word t.meaning) kinds.is_joined).read (map lexeme tokens.now) at ≡ found (option_map (λ u. u.power) result) at }
{
    match token_at(tokens, at) {
        Some(
            Token {
                lexeme: Lexeme::Word(text),
                ..
            },
        ) => joined_unit(text),
        _ => None,
    }
}

/// 1, 10 or 100 and a unit, in two words or in one
#[tactic(auto, unfolding(sdf_tree::specs::Files::unit_parts))]
fn time_unit(tokens: &[Token<'_>], at: usize) -> Result<(Unit, usize), ReadFault>
    ensures { Gives (λ x. (x.0.power, x.1)) result (files.time_unit.read (map lexeme tokens.now) at) }
{
    let Some(scale) = scale_at(tokens, at) else {
        return match joined_at(tokens, at) {
            Some(unit) => Ok((unit, at + 1)),
            None => Err(ReadFault::At(at)),
        };
    };
    match unit_at(tokens, at + 1) {
        Some(unit) => Ok((scaled(scale, unit), at + 2)),
        None => Err(ReadFault::At(at + 1)),
    }
}

/// A head, behind its parenthesis
#[tactic(auto, using(sdf_terms::proofs::Marks::mark_stands, sdf_terms::proofs::Marks::mark_fails), unfolding(sdf_tree::specs::Files::head_parts))]
pub fn head<'a>(tokens: &[Token<'a>], at: usize) -> Result<(WrittenHead<'a>, usize), ReadFault>
    ensures { Gives (λ x. (view_head x.0, x.1)) result (files.head.read (map lexeme tokens.now) at) }
{
    if text_head_stands(tokens, at) {
        let (_, next) = text(tokens, at + 1)?;
        return Ok((WrittenHead::Text, next));
    }
    if is_word(tokens, at, Keyword::Divider) {
        let next = word(tokens, at, Keyword::Divider)?;
        let (divider, next) = divider(tokens, next)?;
        return Ok((WrittenHead::Divider(divider), next));
    }
    if is_word(tokens, at, Keyword::TimeScale) {
        let next = word(tokens, at, Keyword::TimeScale)?;
        let (unit, next) = time_unit(tokens, next)?;
        return Ok((WrittenHead::TimeScale(unit), next));
    }
    if !value_head_stands(tokens, at) {
        return Err(ReadFault::At(at));
    }
    let (value, next) = optional_numbers(tokens, at + 1)?;
    Ok((WrittenHead::Value(value), next))
}
