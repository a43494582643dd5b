// Readers of the last arguments of timing checks, which may be empty or missing.
ghost use Rattle.std.specs.Prelude.{◌≡◌, map, not, option_map};
ghost use Rattle.grammar.specs.Reading.{Gives};
ghost use Rattle.grammar.specs.Rule.{only_if, quoted, stands};
ghost use Rattle.vl_token.specs.Seen.{lexeme};
ghost use Rattle.vl_tree.specs.Checks as checks;
ghost use Rattle.vl_tree.specs.Checks.{fills};
ghost use Rattle.vl_tree.specs.Kinds.{kind_of};
ghost use Rattle.vl_tree.specs.Seen.{view_limit, view_name};

use crate::limits::optional_limit;
use grammar::ReadFault;
use vl_terms::tokens::{is_mark, mark, optional_name, token_at};
use vl_token::{Symbol, Token};
use vl_tree::{Limit, Name};

/// `[ "," [ name ] ]`
pub fn trailing_name<'a>(
    tokens: &[Token<'a>],
    at: usize,
) -> Result<(Option<Name<'a>>, usize), ReadFault>
    ensures { Gives (λ x. (option_map view_name x.0, x.1)) result (checks.trailing_name.read (map lexeme tokens.now) at) }
{
    if !is_mark(tokens, at, Symbol::Comma) {
        return Ok((None, at));
    }
    let next = mark(tokens, at, Symbol::Comma)?;
    optional_name(tokens, next)
}

/// `[ "," [ threshold ] [ "," [ notifier ] ] ]`
pub fn threshold_and_notifier<'a>(
    tokens: &[Token<'a>],
    at: usize,
) -> Result<(Option<Limit<'a>>, Option<Name<'a>>, usize), ReadFault>
    ensures { Gives (λ x. ((option_map view_limit x.0, option_map view_name x.1), x.2)) result (checks.threshold_and_notifier.read (map lexeme tokens.now) at) }
{
    if !is_mark(tokens, at, Symbol::Comma) {
        return Ok((None, None, at));
    }
    let next = mark(tokens, at, Symbol::Comma)?;
    let (threshold, next) = optional_limit(tokens, next)?;
    let (notifier, next) = trailing_name(tokens, next)?;
    Ok((threshold, notifier, next))
}

/// Whether a token stands there that fills an argument.
fn fills(tokens: &[Token<'_>], at: usize) -> bool
    ensures { result ≡ stands kind_of fills (map lexeme tokens.now) at }
{
    if token_at(tokens, at).is_none() {
        return false;
    }
    !is_mark(tokens, at, Symbol::Comma) && !is_mark(tokens, at, Symbol::RightParen)
}

/// Whether a token stands there that fills an argument, and may.
fn filler_stands(tokens: &[Token<'_>], at: usize, limited: bool) -> bool
    ensures { result ≡ stands kind_of (only_if (not limited) (quoted kind_of fills)).starts (map lexeme tokens.now) at }
{
    if limited {
        return false;
    }
    fills(tokens, at)
}

/// A token that fills an argument, where that isn't limited.
fn filler(tokens: &[Token<'_>], at: usize, limited: bool) -> Result<usize, ReadFault>
    ensures { Gives (λ next. (tt, next)) result ((only_if (not limited) (quoted kind_of fills)).read (map lexeme tokens.now) at) }
{
    if limited || !fills(tokens, at) {
        return Err(ReadFault::At(at));
    }
    Ok(at + 1)
}

/// The position behind an argument that may not be filled: where that isn't limited, a token may fill it.
fn spare(tokens: &[Token<'_>], at: usize, limited: bool) -> Result<usize, ReadFault>
    ensures { Gives (λ next. (tt, next)) result ((checks.spare limited).read (map lexeme tokens.now) at) }
{
    if !filler_stands(tokens, at, limited) {
        return Ok(at);
    }
    filler(tokens, at, limited)
}

/// `[ "," [ delayed-reference ] [ "," [ delayed-data ] ] ]`
fn delayed_signals<'a>(
    tokens: &[Token<'a>],
    at: usize,
) -> Result<(Option<Name<'a>>, Option<Name<'a>>, usize), ReadFault>
    ensures { Gives (λ x. ((option_map view_name x.0, option_map view_name x.1), x.2)) result (checks.delayed_signals.read (map lexeme tokens.now) at) }
{
    if !is_mark(tokens, at, Symbol::Comma) {
        return Ok((None, None, at));
    }
    let next = mark(tokens, at, Symbol::Comma)?;
    let (reference, next) = optional_name(tokens, next)?;
    let (data, next) = trailing_name(tokens, next)?;
    Ok((reference, data, next))
}

/// `[ "," delayed-signals ]`: the condition of the time check isn't filled.
fn from_checktime<'a>(
    tokens: &[Token<'a>],
    at: usize,
    limited: bool,
) -> Result<(Option<Name<'a>>, Option<Name<'a>>, usize), ReadFault>
    ensures { Gives (λ x. ((option_map view_name x.0, option_map view_name x.1), x.2)) result ((checks.from_checktime limited).read (map lexeme tokens.now) at) }
{
    if !is_mark(tokens, at, Symbol::Comma) {
        return Ok((None, None, at));
    }
    let next = mark(tokens, at, Symbol::Comma)?;
    let next = spare(tokens, next, limited)?;
    delayed_signals(tokens, next)
}

/// `[ "," from-checktime ]`: the condition of the time stamp isn't filled.
fn from_stamptime<'a>(
    tokens: &[Token<'a>],
    at: usize,
    limited: bool,
) -> Result<(Option<Name<'a>>, Option<Name<'a>>, usize), ReadFault>
    ensures { Gives (λ x. ((option_map view_name x.0, option_map view_name x.1), x.2)) result ((checks.from_stamptime limited).read (map lexeme tokens.now) at) }
{
    if !is_mark(tokens, at, Symbol::Comma) {
        return Ok((None, None, at));
    }
    let next = mark(tokens, at, Symbol::Comma)?;
    let next = spare(tokens, next, limited)?;
    from_checktime(tokens, next, limited)
}

/// `[ "," [ notifier ] from-stamptime ]`
pub fn last_arguments<'a>(
    tokens: &[Token<'a>],
    at: usize,
    limited: bool,
) -> Result<(Option<Name<'a>>, Option<Name<'a>>, Option<Name<'a>>, usize), ReadFault>
    ensures { Gives (λ x. ((option_map view_name x.0, (option_map view_name x.1, option_map view_name x.2)), x.3)) result ((checks.last_arguments limited).read (map lexeme tokens.now) at) }
{
    if !is_mark(tokens, at, Symbol::Comma) {
        return Ok((None, None, None, at));
    }
    let next = mark(tokens, at, Symbol::Comma)?;
    let (notifier, next) = optional_name(tokens, next)?;
    let (reference, data, next) = from_stamptime(tokens, next, limited)?;
    Ok((notifier, reference, data, next))
}
