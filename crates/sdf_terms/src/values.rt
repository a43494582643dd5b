// Readers of numbers, values and delays.
ghost use Rattle.std.specs.Prelude.{◌≡◌, map, is_some};
ghost use Rattle.std.specs.Option.{option_map};
ghost use Rattle.grammar.specs.Reading.{Gives};
ghost use Rattle.grammar.specs.Rule.{stands};
ghost use Rattle.sdf_lex.specs.Seen.{lexeme};
ghost use Rattle.sdf_tree.specs.Kinds as kinds;
ghost use Rattle.sdf_tree.specs.Kinds.{kind_of};
ghost use Rattle.sdf_tree.specs.Rules as rules;
ghost use Rattle.sdf_tree.specs.Seen.{view_boxed, view_delay, view_number, view_value};
ghost use Rattle.sdf_tree.specs.Values as values;
ghost use Rattle.sdf_terms.specs.Tokens.{found};

use crate::tokens::{colon, is_colon, is_left, is_select, left, place_at, right, token_at};
use grammar::ReadFault;
use sdf_lex::{Lexeme, Token};
use sdf_tree::{WrittenDelay, WrittenLimits, WrittenNumber, WrittenValue, begins_number};
use std::alloc::Global;

const NO_VALUE: WrittenValue<'static> = WrittenValue {
    min: None,
    typ: None,
    max: None,
};

/// The number that stands there, without a bit select at its end.
#[tactic(auto, using(sdf_tree::proofs::NumberLaws::number_word))]
fn number_at<'a>(tokens: &[Token<'a>], at: usize) -> Option<WrittenNumber<'a>>
    ensures read { values.number_word.read (map lexeme tokens.now) at ≡ found (option_map view_number result) at }
    ensures stands { stands kind_of kinds.is_number (map lexeme tokens.now) at ≡ is_some result }
{
    let token = token_at(tokens, at)?;
    match token.lexeme {
        Lexeme::Word(text) if begins_number(text) => Some(WrittenNumber {
            place: token.place(),
            text,
        }),
        Lexeme::Selected { whole, .. } if begins_number(whole) => Some(WrittenNumber {
            place: token.place(),
            text: whole,
        }),
        _ => None,
    }
}

/// A word that begins like a number. A bit select at its end belongs to it.
#[tactic(auto, unfolding(sdf_tree::specs::Values::number_parts))]
fn number<'a>(tokens: &[Token<'a>], at: usize) -> Result<(WrittenNumber<'a>, usize), ReadFault>
    ensures { Gives (λ x. (view_number x.0, x.1)) result (values.number.read (map lexeme tokens.now) at) }
{
    let Some(number) = number_at(tokens, at) else {
        return Err(ReadFault::At(at));
    };
    let next = if is_select(tokens, at + 1) {
        at + 2
    } else {
        at + 1
    };
    Ok((number, next))
}

/// `[ number ]`
fn optional_number<'a>(
    tokens: &[Token<'a>],
    at: usize,
) -> Result<(Option<WrittenNumber<'a>>, usize), ReadFault>
    ensures { Gives (λ x. (option_map view_number x.0, x.1)) result ((rules.optional values.number).read (map lexeme tokens.now) at) }
{
    if number_at(tokens, at).is_none() {
        return Ok((None, at));
    }
    let (found, next) = number(tokens, at)?;
    Ok((Some(found), next))
}

/// `":" [ number ] ":" [ number ]`
#[tactic(auto, unfolding(sdf_tree::specs::Values::others_parts))]
fn others<'a>(
    tokens: &[Token<'a>],
    at: usize,
) -> Result<
    (
        (Option<WrittenNumber<'a>>, Option<WrittenNumber<'a>>),
        usize,
    ),
    ReadFault,
>
    ensures { Gives (λ x. ((option_map view_number x.0.0, option_map view_number x.0.1), x.1)) result (values.others.read (map lexeme tokens.now) at) }
{
    let next = colon(tokens, at)?;
    let (typ, next) = optional_number(tokens, next)?;
    let next = colon(tokens, next)?;
    let (max, next) = optional_number(tokens, next)?;
    Ok(((typ, max), next))
}

/// `number [ ":" [ number ] ":" [ number ] ] | ":" [ number ] ":" [ number ]`
#[tactic(auto, unfolding(sdf_tree::specs::Values::numbers_parts))]
pub fn numbers<'a>(tokens: &[Token<'a>], at: usize) -> Result<(WrittenValue<'a>, usize), ReadFault>
    ensures { Gives (λ x. (view_value x.0, x.1)) result (values.numbers.read (map lexeme tokens.now) at) }
{
    if number_at(tokens, at).is_none() {
        let ((typ, max), next) = others(tokens, at)?;
        return Ok((
            WrittenValue {
                min: None,
                typ,
                max,
            },
            next,
        ));
    }
    let (first, next) = number(tokens, at)?;
    let min = Some(first);
    if !is_colon(tokens, next) {
        return Ok((
            WrittenValue {
                min,
                typ: min,
                max: min,
            },
            next,
        ));
    }
    let ((typ, max), next) = others(tokens, next)?;
    Ok((WrittenValue { min, typ, max }, next))
}

/// Whether numbers stand there.
fn numbers_stand(tokens: &[Token<'_>], at: usize) -> bool
    ensures { result ≡ stands kind_of values.numbers_starts (map lexeme tokens.now) at }
{
    number_at(tokens, at).is_some() || is_colon(tokens, at)
}

/// `[ numbers ]`
pub fn optional_numbers<'a>(
    tokens: &[Token<'a>],
    at: usize,
) -> Result<(Option<WrittenValue<'a>>, usize), ReadFault>
    ensures { Gives (λ x. (option_map view_value x.0, x.1)) result ((rules.optional values.numbers).read (map lexeme tokens.now) at) }
{
    if !numbers_stand(tokens, at) {
        return Ok((None, at));
    }
    let (found, next) = numbers(tokens, at)?;
    Ok((Some(found), next))
}

/// `"(" [ numbers ] ")"`
#[tactic(auto, unfolding(sdf_tree::specs::Values::value_parts))]
pub fn value<'a>(tokens: &[Token<'a>], at: usize) -> Result<(WrittenValue<'a>, usize), ReadFault>
    ensures { Gives (λ x. (view_value x.0, x.1)) result (values.value.read (map lexeme tokens.now) at) }
{
    let next = left(tokens, at)?;
    let (found, next) = optional_numbers(tokens, next)?;
    let next = right(tokens, next)?;
    match found {
        Some(found) => Ok((found, next)),
        None => Ok((NO_VALUE, next)),
    }
}

/// `[ value ]`
pub fn optional_value<'a>(
    tokens: &[Token<'a>],
    at: usize,
) -> Result<(Option<WrittenValue<'a>>, usize), ReadFault>
    ensures { Gives (λ x. (option_map view_value x.0, x.1)) result ((rules.optional values.value).read (map lexeme tokens.now) at) }
{
    if !is_left(tokens, at) {
        return Ok((None, at));
    }
    let (found, next) = value(tokens, at)?;
    Ok((Some(found), next))
}

/// `value value [ value ] ")" | [ numbers ] ")"`, behind a parenthesis
#[tactic(auto, unfolding(sdf_tree::specs::Values::delay_rest_parts))]
pub fn delay_rest<'a>(
    alloc: Global,
    tokens: &[Token<'a>],
    at: usize,
) -> Result<((WrittenValue<'a>, Option<Box<WrittenLimits<'a>>>), usize), ReadFault>
    ensures { Gives (λ x. ((view_value x.0.0, option_map view_boxed x.0.1), x.1)) result (values.delay_rest.read (map lexeme tokens.now) at) }
{
    if is_left(tokens, at) {
        let (delay, next) = value(tokens, at)?;
        let (reject, next) = value(tokens, next)?;
        let (error, next) = optional_value(tokens, next)?;
        let next = right(tokens, next)?;
        let limits = Box::new(alloc, WrittenLimits { reject, error })?;
        return Ok(((delay, Some(limits)), next));
    }
    let (found, next) = optional_numbers(tokens, at)?;
    let next = right(tokens, next)?;
    match found {
        Some(delay) => Ok(((delay, None), next)),
        None => Ok(((NO_VALUE, None), next)),
    }
}

/// `"(" value value [ value ] ")" | value`
#[tactic(auto, unfolding(sdf_tree::specs::Values::delay_parts))]
pub fn delay<'a>(
    alloc: Global,
    tokens: &[Token<'a>],
    at: usize,
) -> Result<(WrittenDelay<'a>, usize), ReadFault>
    ensures { Gives (λ x. (view_delay x.0, x.1)) result (values.delay.read (map lexeme tokens.now) at) }
{
    let next = left(tokens, at)?;
    let ((delay, limits), next) = delay_rest(alloc, tokens, next)?;
    let place = place_at(tokens, at)?;
    Ok((
        WrittenDelay {
            place,
            delay,
            limits,
        },
        next,
    ))
}
