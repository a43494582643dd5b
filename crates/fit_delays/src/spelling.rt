// Tokens as they are written.
use crate::conditions::op_text;
use crate::numbers::push_number;
use itoa::Buffer;
use sdf_lex::{Lexeme, Token};
use sg_text::{NoMemory, is_name_byte};

// How many bytes a token is written with, where that is known.
fn size_of_token(token: &Token<'_>) -> usize {
    match token.lexeme {
        Lexeme::Word(bytes) => bytes.len(),
        Lexeme::Selected { whole, .. } => whole.len(),
        Lexeme::Text(bytes) => bytes.len().saturating_add(2),
        Lexeme::Operator(op) => op_text(op).len(),
        Lexeme::Select(_) => 0,
        Lexeme::UnendedText => 1,
        Lexeme::Left | Lexeme::Right | Lexeme::Colon | Lexeme::Star | Lexeme::Other(_) => 1,
    }
}

/// The byte behind a token; that of the whole word for one with a select.
pub fn end_of(token: &Token<'_>) -> usize {
    (token.byte as usize).saturating_add(size_of_token(token))
}

fn push_token(text: &mut Vec<u8>, token: &Token<'_>) -> Result<(), NoMemory> {
    match token.lexeme {
        Lexeme::Word(bytes) => push_number(text, bytes)?,
        Lexeme::Selected { whole, .. } => text.extend_from_slice(whole)?,
        Lexeme::Text(bytes) => {
            text.push(b'"')?;
            text.extend_from_slice(bytes)?;
            text.push(b'"')?;
        }
        Lexeme::Operator(op) => text.extend_from_slice(op_text(op))?,
        Lexeme::Select(_) | Lexeme::UnendedText => {}
        Lexeme::Left => text.push(b'(')?,
        Lexeme::Right => text.push(b')')?,
        Lexeme::Colon => text.push(b':')?,
        Lexeme::Star => text.push(b'*')?,
        Lexeme::Other(b) => text.push(b)?,
    }
    Ok(())
}

/// Adds tokens on one line, with a blank where something stands between two.
pub fn push_tokens(text: &mut Vec<u8>, tokens: &[Token<'_>]) -> Result<(), NoMemory> {
    let mut end = None;
    for token in tokens {
        if let Lexeme::Select(_) = token.lexeme {
            continue;
        }
        if let Some(end) = end {
            if end < token.byte as usize {
                text.push(b' ')?;
            }
        }
        push_token(text, token)?;
        end = Some(end_of(token));
    }
    Ok(())
}

/// Adds a name as a file writes it: a backslash stands before each byte that no plain name has (IEEE 1497-2001, the clause on identifiers).
pub fn push_name(text: &mut Vec<u8>, name: &[u8]) -> Result<(), NoMemory> {
    for (at, b) in name.iter().enumerate() {
        if !is_name_byte(*b) || (at == 0 && b.is_ascii_digit()) {
            text.push(b'\\')?;
        }
        text.push(*b)?;
    }
    Ok(())
}

/// Adds an integer.
pub fn push_integer(text: &mut Vec<u8>, number: i64) -> Result<(), NoMemory> {
    let mut buffer = Buffer::new();
    text.extend_from_slice(buffer.format(number).as_bytes())?;
    Ok(())
}
