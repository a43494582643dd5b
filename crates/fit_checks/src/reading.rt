// Checks of two limits with conditions, told apart by commas. Whether what is told apart is the check is looked at where it counts.
use crate::written::{Terminal, Written};
use sg_text::NoMemory;
use std::alloc::Global;
use vl_token::{Symbol, Token, TokenKind};
use vl_tree::{CheckName, TwoLimitCheck, check_of};

fn kind_of(tokens: &[Token<'_>]) -> Option<TwoLimitCheck> {
    let TokenKind::System(name) = tokens.first()?.kind else {
        return None;
    };
    match check_of(name)? {
        CheckName::TwoLimits(kind) => Some(kind),
        _ => None,
    }
}

fn terminal_of<'t, 'a>(run: &'t [Token<'a>]) -> Terminal<'t, 'a> {
    let mut size: usize = 0;
    let mut ahead = run;
    while let [token, rest @ ..] = ahead {
        if let TokenKind::Symbol(Symbol::AndAndAnd) = token.kind {
            return Terminal {
                signal: run.get(..size).unwrap_or(run),
                condition: rest,
            };
        }
        size = size.saturating_add(1);
        ahead = rest;
    }
    Terminal {
        signal: run,
        condition: ahead,
    }
}

fn depth_behind(depth: u32, token: &Token<'_>) -> u32 {
    match token.kind {
        TokenKind::Symbol(Symbol::LeftParen | Symbol::LeftBracket | Symbol::LeftBrace) => {
            depth.saturating_add(1)
        }
        TokenKind::Symbol(Symbol::RightParen | Symbol::RightBracket | Symbol::RightBrace) => {
            depth.saturating_sub(1)
        }
        _ => depth,
    }
}

fn is_comma(token: &Token<'_>) -> bool {
    match token.kind {
        TokenKind::Symbol(Symbol::Comma) => true,
        _ => false,
    }
}

// The place before the first and that behind the last of what stands between commas that stand in no brackets.
fn places_of(alloc: Global, tokens: &[Token<'_>]) -> Result<Vec<(usize, usize)>, NoMemory> {
    let mut places = Vec::new(alloc);
    let mut first: usize = 0;
    let mut at: usize = 0;
    let mut depth = 0;
    for token in tokens {
        if depth == 0 && is_comma(token) {
            places.push((first, at))?;
            first = at.saturating_add(1);
        }
        depth = depth_behind(depth, token);
        at = at.saturating_add(1);
    }
    places.push((first, at))?;
    Ok(places)
}

fn run_at<'t, 'a>(tokens: &'t [Token<'a>], place: (usize, usize)) -> &'t [Token<'a>] {
    tokens.get(place.0..place.1).unwrap_or(tokens)
}

fn push_at<'t, 'a>(
    runs: &mut Vec<&'t [Token<'a>]>,
    tokens: &'t [Token<'a>],
    places: &[(usize, usize)],
    number: usize,
) -> Result<(), NoMemory> {
    if let Some(place) = places.get(number) {
        runs.push(run_at(tokens, *place))?;
    }
    Ok(())
}

// The arguments behind the notifier, which are four at most.
fn last_of<'t, 'a>(
    alloc: Global,
    tokens: &'t [Token<'a>],
    places: &[(usize, usize)],
) -> Result<Vec<&'t [Token<'a>]>, NoMemory> {
    let mut runs = Vec::new(alloc);
    push_at(&mut runs, tokens, places, 0)?;
    push_at(&mut runs, tokens, places, 1)?;
    push_at(&mut runs, tokens, places, 2)?;
    push_at(&mut runs, tokens, places, 3)?;
    Ok(runs)
}

/// The check that a statement is, from its name to its semicolon, if it has an argument for the condition of the time stamp.
/// Takes memory.
pub fn written_of<'t, 'a>(
    alloc: Global,
    tokens: &'t [Token<'a>],
) -> Result<Option<Written<'t, 'a>>, NoMemory> {
    let Some(kind) = kind_of(tokens) else {
        return Ok(None);
    };
    let [_, _, inner @ .., _, _] = tokens else {
        return Ok(None);
    };
    let places = places_of(alloc, inner)?;
    let [refer, datum, first, second, notifier, last @ ..] = places.as_slice() else {
        return Ok(None);
    };
    if last.is_empty() {
        return Ok(None);
    }
    Ok(Some(Written {
        kind,
        refer: terminal_of(run_at(inner, *refer)),
        datum: terminal_of(run_at(inner, *datum)),
        first: run_at(inner, *first),
        second: run_at(inner, *second),
        notifier: run_at(inner, *notifier),
        last: last_of(alloc, inner, last)?,
    }))
}
