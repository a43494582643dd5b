// The bytes of statements.
use fit_changes::Changes;
use fit_items::{Run, Span, joined, piece_of, span_of, text_of};
use sg_text::NoMemory;
use std::alloc::Global;
use vl_pieces::Class;
use vl_token::Token;

const LINE_FEED: u8 = b'\n';

// Whether two tokens come from one use of a macro.
fn is_of_one_use(one: Option<&Token<'_>>, other: Option<&Token<'_>>) -> bool {
    match (one, other) {
        (Some(one), Some(other)) => one.place == other.place,
        _ => false,
    }
}

fn piece_at(files: &[Changes<'_>], part: &[Token<'_>], at: usize) -> Option<(Class, Span)> {
    piece_of(files, part.get(at)?)
}

/// The bytes of a run, and those of the uses of macros that give its tokens, if these give no others.
pub fn whole_span(files: &[Changes<'_>], part: &[Token<'_>], run: Run) -> Option<Span> {
    if run.is_empty() {
        return None;
    }
    let last = run.end.saturating_sub(1);
    if is_of_one_use(part.get(last), part.get(run.end)) {
        return None;
    }
    if run.first > 0 && is_of_one_use(part.get(run.first - 1), part.get(run.first)) {
        return None;
    }
    let (_, begin) = piece_at(files, part, run.first)?;
    let (_, end) = piece_at(files, part, last)?;
    joined(begin, end)
}

/// The place before a run, if no macro gives its first token.
pub fn span_before(files: &[Changes<'_>], part: &[Token<'_>], run: Run) -> Option<Span> {
    let span = span_of(files, part.get(run.first)?)?;
    Some(Span {
        file: span.file,
        byte: span.byte,
        end: span.byte,
    })
}

/// Adds as many line feeds as a span has.
pub fn push_feeds(text: &mut Vec<u8>, files: &[Changes<'_>], span: Span) -> Result<(), NoMemory> {
    for b in text_of(files, span).unwrap_or(b"") {
        if *b == LINE_FEED {
            text.push(LINE_FEED)?;
        }
    }
    Ok(())
}

/// The text of a run as a report tells it: its first line.
pub fn told_text(
    alloc: Global,
    files: &[Changes<'_>],
    part: &[Token<'_>],
    run: Run,
) -> Result<Vec<u8>, NoMemory> {
    let mut told = Vec::new(alloc);
    let Some(span) = whole_span(files, part, run) else {
        return Ok(told);
    };
    for b in text_of(files, span).unwrap_or(b"") {
        if *b == LINE_FEED || *b == b'\r' {
            break;
        }
        told.push(*b)?;
    }
    Ok(told)
}
