// The bytes of tokens.
use fit_changes::Changes;
use vl_pieces::{Class, Mode, first_piece};
use vl_token::Token;

// No text that is read is longer.
const MOST: usize = 1 << 60;

/// Bytes of a file, from one to the one behind the last.
#[derive(Clone, Copy, Debug, PartialEq, Eq)]
pub struct Span {
    pub file: u32,
    pub byte: usize,
    pub end: usize,
}

/// What stands where a token does, which is a use where a macro gave it, and its bytes.
pub fn piece_of(files: &[Changes<'_>], token: &Token<'_>) -> Option<(Class, Span)> {
    let file = token.place.file;
    let text = files.get(file as usize)?.text();
    let byte = usize::try_from(token.place.byte).ok()?;
    let rest = text.get(byte..)?;
    if rest.is_empty() || rest.len() > MOST {
        return None;
    }
    let (class, size) = first_piece(Mode::Plain, rest);
    let end = byte.saturating_add(size);
    Some((class, Span { file, byte, end }))
}

/// The bytes of a token that no macro gave.
pub fn span_of(files: &[Changes<'_>], token: &Token<'_>) -> Option<Span> {
    match piece_of(files, token)? {
        (Class::Use, _) => None,
        (_, span) => Some(span),
    }
}

/// From the first to the last of some bytes, where they stand in one file.
pub fn joined(first: Span, last: Span) -> Option<Span> {
    if first.file != last.file || last.end < first.byte {
        return None;
    }
    Some(Span {
        file: first.file,
        byte: first.byte,
        end: last.end,
    })
}

/// The bytes from the first to the last of some tokens.
pub fn span_of_all(files: &[Changes<'_>], tokens: &[Token<'_>]) -> Option<Span> {
    let first = tokens.first()?;
    let last = tokens.last()?;
    joined(span_of(files, first)?, span_of(files, last)?)
}

/// The text of a span.
pub fn text_of<'a>(files: &[Changes<'a>], span: Span) -> Option<&'a [u8]> {
    let text = files.get(span.file as usize)?.text();
    text.get(span.byte..span.end)
}
