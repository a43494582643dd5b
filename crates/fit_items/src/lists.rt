// Lists, and what stands in brackets.
use crate::items::Run;
use crate::signs::{Bracket, bracket_of, is_symbol};
use sg_text::NoMemory;
use std::alloc::Global;
use vl_token::{Symbol, Token};

/// The tokens of a run.
pub fn tokens_of<'t, 'a>(part: &'t [Token<'a>], run: Run) -> &'t [Token<'a>] {
    if run.first <= run.end && run.end <= part.len() {
        &part[run.first..run.end]
    } else {
        &part[..0]
    }
}

fn depth_behind(depth: u32, token: &Token<'_>) -> u32 {
    match bracket_of(token) {
        Bracket::Opens => depth.saturating_add(1),
        Bracket::Closes => depth.saturating_sub(1),
        Bracket::No => depth,
    }
}

/// The place of the bracket that closes the one at a place, before an end.
pub fn closing_of(part: &[Token<'_>], open: usize, end: usize) -> Option<usize> {
    let mut depth = 0;
    for at in open..end {
        depth = depth_behind(depth, part.get(at)?);
        if depth == 0 {
            return Some(at);
        }
    }
    None
}

/// The pieces of a run between symbols that stand in no brackets of it: one more than there are such symbols. Takes memory.
pub fn pieces_between(
    alloc: Global,
    part: &[Token<'_>],
    run: Run,
    symbol: Symbol,
) -> Result<Vec<Run>, NoMemory> {
    let mut pieces = Vec::new(alloc);
    let mut first = run.first;
    let mut depth = 0;
    for at in run.first..run.end {
        let Some(token) = part.get(at) else {
            break;
        };
        if depth == 0 && is_symbol(token, symbol) {
            pieces.push(Run { first, end: at })?;
            first = at + 1;
        }
        depth = depth_behind(depth, token);
    }
    pieces.push(Run {
        first,
        end: run.end,
    })?;
    Ok(pieces)
}

/// The pieces between commas; none of a run without tokens. Takes memory.
pub fn comma_pieces(alloc: Global, part: &[Token<'_>], run: Run) -> Result<Vec<Run>, NoMemory> {
    if run.is_empty() {
        return Ok(Vec::new(alloc));
    }
    pieces_between(alloc, part, run, Symbol::Comma)
}

/// Without parentheses round the whole run, if there are such.
pub fn without_parens(part: &[Token<'_>], run: Run) -> Run {
    let inner = Run {
        first: run.first.saturating_add(1),
        end: run.end.saturating_sub(1),
    };
    match part.get(run.first) {
        Some(token)
            if is_symbol(token, Symbol::LeftParen)
                && closing_of(part, run.first, run.end) == Some(inner.end) => { inner }
        _ => run,
    }
}
