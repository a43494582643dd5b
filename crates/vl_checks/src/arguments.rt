// Readers of the arguments of timing checks.
ghost use Rattle.std.specs.Prelude.{◌≡◌, true, map, option_map};
ghost use Rattle.grammar.specs.Reading.{Gives};
ghost use Rattle.vl_token.specs.Seen.{lexeme};
ghost use Rattle.vl_tree.specs.declared.check_names.CheckName.TheVariants as names;
ghost use Rattle.vl_tree.specs.Checks as checks;
ghost use Rattle.vl_tree.specs.Seen.{view_check, view_event, view_limit, view_name};

use crate::events::event;
use crate::last_arguments::{last_arguments, threshold_and_notifier, trailing_name};
use crate::limits::limit;
use grammar::ReadFault;
use sg_text::Place;
use std::alloc::Global;
use vl_terms::tokens::mark;
use vl_token::{Symbol, Token};
use vl_tree::{Check, CheckName, Event, Limit, Name, OneLimitCheck, TwoLimitCheck};

/// A check between two events: in `$setup` the data stands before the reference.
fn between<'a>(
    place: Place,
    check: OneLimitCheck,
    first: Event<'a>,
    second: Event<'a>,
    limit: Limit<'a>,
    notifier: Option<Name<'a>>,
) -> Check<'a>
    ensures { view_check result ≡ checks.between place check (view_event first.entry) (view_event second.entry) (view_limit limit.entry) (option_map view_name notifier.entry) }
{
    let (reference, data) = match check {
        OneLimitCheck::Setup => (second, first),
        _ => (first, second),
    };
    Check::OneLimit {
        place,
        check,
        reference,
        data,
        limit,
        notifier,
    }
}

/// `event "," event "," limit [ "," [ notifier ] ]`
fn one_limit<'a>(
    alloc: Global,
    tokens: &[Token<'a>],
    at: usize,
    place: Place,
    check: OneLimitCheck,
) -> Result<(Check<'a>, usize), ReadFault>
    ensures { Gives (λ x. (view_check x.0, x.1)) result ((checks.arguments_of true place (names.OneLimit check)).read (map lexeme tokens.now) at) }
{
    let (first, next) = event(alloc, tokens, at)?;
    let next = mark(tokens, next, Symbol::Comma)?;
    let (second, next) = event(alloc, tokens, next)?;
    let next = mark(tokens, next, Symbol::Comma)?;
    let (bound, next) = limit(tokens, next, false)?;
    let (notifier, next) = trailing_name(tokens, next)?;
    Ok((between(place, check, first, second, bound, notifier), next))
}

/// `event "," event "," limit "," limit last-arguments`
fn two_limits<'a>(
    alloc: Global,
    tokens: &[Token<'a>],
    at: usize,
    limited: bool,
    place: Place,
    check: TwoLimitCheck,
) -> Result<(Check<'a>, usize), ReadFault>
    ensures { Gives (λ x. (view_check x.0, x.1)) result ((checks.arguments_of limited place (names.TwoLimits check)).read (map lexeme tokens.now) at) }
{
    let (reference, next) = event(alloc, tokens, at)?;
    let next = mark(tokens, next, Symbol::Comma)?;
    let (data, next) = event(alloc, tokens, next)?;
    let next = mark(tokens, next, Symbol::Comma)?;
    let (first, next) = limit(tokens, next, true)?;
    let next = mark(tokens, next, Symbol::Comma)?;
    let (second, next) = limit(tokens, next, true)?;
    let (notifier, delayed_reference, delayed_data, next) = last_arguments(tokens, next, limited)?;
    let check = Check::TwoLimits {
        place,
        check,
        reference,
        data,
        first,
        second,
        notifier,
        delayed_reference,
        delayed_data,
    };
    Ok((check, next))
}

/// `event "," limit threshold-and-notifier`
fn width<'a>(
    alloc: Global,
    tokens: &[Token<'a>],
    at: usize,
    place: Place,
) -> Result<(Check<'a>, usize), ReadFault>
    ensures { Gives (λ x. (view_check x.0, x.1)) result ((checks.arguments_of true place names.Width).read (map lexeme tokens.now) at) }
{
    let (reference, next) = event(alloc, tokens, at)?;
    let next = mark(tokens, next, Symbol::Comma)?;
    let (limit, next) = limit(tokens, next, false)?;
    let (threshold, notifier, next) = threshold_and_notifier(tokens, next)?;
    let check = Check::Width {
        place,
        reference,
        limit,
        threshold,
        notifier,
    };
    Ok((check, next))
}

/// `event "," limit [ "," [ notifier ] ]`
fn period<'a>(
    alloc: Global,
    tokens: &[Token<'a>],
    at: usize,
    place: Place,
) -> Result<(Check<'a>, usize), ReadFault>
    ensures { Gives (λ x. (view_check x.0, x.1)) result ((checks.arguments_of true place names.Period).read (map lexeme tokens.now) at) }
{
    let (reference, next) = event(alloc, tokens, at)?;
    let next = mark(tokens, next, Symbol::Comma)?;
    let (limit, next) = limit(tokens, next, false)?;
    let (notifier, next) = trailing_name(tokens, next)?;
    let check = Check::Period {
        place,
        reference,
        limit,
        notifier,
    };
    Ok((check, next))
}

/// The arguments of a check.
pub fn arguments_of<'a>(
    alloc: Global,
    tokens: &[Token<'a>],
    at: usize,
    limited: bool,
    place: Place,
    name: CheckName,
) -> Result<(Check<'a>, usize), ReadFault>
    ensures { Gives (λ x. (view_check x.0, x.1)) result ((checks.arguments_of limited place name).read (map lexeme tokens.now) at) }
{
    match name {
        CheckName::OneLimit(check) => one_limit(alloc, tokens, at, place, check),
        CheckName::TwoLimits(check) => two_limits(alloc, tokens, at, limited, place, check),
        CheckName::Width => width(alloc, tokens, at, place),
        CheckName::Period => period(alloc, tokens, at, place),
    }
}
