// Statements of a specify block (IEEE 1364-2005, clauses 14 and 15).
use crate::declared::declarations_of;
use crate::items::{Run, SpecifyKind, SpecifyPart};
use crate::lists::{comma_pieces, pieces_between, without_parens};
use crate::readers::Reader;
use sg_text::{Keyword, NoMemory};
use std::alloc::Global;
use vl_token::{Symbol, Token, TokenKind};

fn params_of(alloc: Global, part: &[Token<'_>], run: Run) -> Result<SpecifyKind, NoMemory> {
    let mut reader = Reader::new(part, run);
    reader.step();
    match declarations_of(alloc, part, reader.rest())? {
        Some(list) => Ok(SpecifyKind::Params(list)),
        None => Ok(SpecifyKind::Other),
    }
}

fn check_of(alloc: Global, part: &[Token<'_>], run: Run) -> Result<SpecifyKind, NoMemory> {
    let mut reader = Reader::new(part, run);
    let word = reader.step();
    match reader.parens() {
        Some(inner) if reader.is_done() => Ok(SpecifyKind::Check {
            word,
            arguments: comma_pieces(alloc, part, inner)?,
        }),
        _ => Ok(SpecifyKind::Other),
    }
}

fn path_of(part: &[Token<'_>], run: Run) -> Option<SpecifyKind> {
    let mut reader = Reader::new(part, run);
    let condition = if reader.passes_word(Keyword::If) {
        reader.parens()?
    } else {
        Run::none(run.first)
    };
    let ifnone = reader.passes_word(Keyword::IfNone);
    let head = reader.parens()?;
    if !reader.passes(Symbol::Assign) {
        return None;
    }
    Some(SpecifyKind::Path {
        condition,
        ifnone,
        head,
        delays: without_parens(part, reader.rest()),
    })
}

fn kind_of(alloc: Global, part: &[Token<'_>], run: Run) -> Result<SpecifyKind, NoMemory> {
    let Some(first) = part.get(run.first) else {
        return Ok(SpecifyKind::Other);
    };
    match first.kind {
        TokenKind::Word(Keyword::SpecParam) => params_of(alloc, part, run),
        TokenKind::System(_) => check_of(alloc, part, run),
        TokenKind::Word(
            Keyword::PulseStyleOnEvent
            | Keyword::PulseStyleOnDetect
            | Keyword::ShowCancelled
            | Keyword::NoShowCancelled,
        ) => Ok(SpecifyKind::Style),
        _ => Ok(path_of(part, run).unwrap_or(SpecifyKind::Other)),
    }
}

/// The statements that stand in a specify block. Takes memory.
pub fn specify_parts(
    alloc: Global,
    part: &[Token<'_>],
    run: Run,
) -> Result<Vec<SpecifyPart>, NoMemory> {
    let mut parts = Vec::new(alloc);
    for piece in pieces_between(alloc, part, run, Symbol::Semicolon)? {
        if piece.is_empty() {
            continue;
        }
        let whole = Run {
            first: piece.first,
            end: piece.end.saturating_add(1).min(run.end),
        };
        let kind = kind_of(alloc, part, piece)?;
        parts.push(SpecifyPart { whole, kind })?;
    }
    Ok(parts)
}
