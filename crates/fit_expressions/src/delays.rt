// Delays of assignments as those of gates.
use fit_items::{Run, is_symbol, tokens_of};
use fit_terms::Stop;
use itoa::Buffer;
use std::alloc::{AllocError, Global};
use vl_token::{Symbol, Token, TokenKind};

fn push_number(text: &mut Vec<u8>, digits: u64, exponent: i32) -> Result<(), AllocError> {
    let mut buffer = Buffer::new();
    text.extend_from_slice(buffer.format(digits).as_bytes())?;
    if exponent != 0 {
        let mut buffer = Buffer::new();
        text.push(b'e')?;
        text.extend_from_slice(buffer.format(exponent).as_bytes())?;
    }
    Ok(())
}

fn push_token(text: &mut Vec<u8>, token: &Token<'_>) -> Result<(), Stop> {
    match token.kind {
        TokenKind::Number { value, .. } => push_number(text, value.digits, value.exponent)?,
        TokenKind::Symbol(Symbol::Colon) => text.push(b':')?,
        TokenKind::Symbol(Symbol::Comma) => text.extend_from_slice(b", ")?,
        _ => return Err(Stop::Other),
    }
    Ok(())
}

/// A delay as it stands at a gate, with the blank before it: empty where there is none. Of numbers alone, and of two at most,
/// since most gates have no third (IEEE 1364-2005, 7.14).
pub fn delay_text(alloc: Global, part: &[Token<'_>], delay: Run) -> Result<Vec<u8>, Stop> {
    let mut text = Vec::new(alloc);
    let tokens = tokens_of(part, delay);
    if tokens.is_empty() {
        return Ok(text);
    }
    let commas = tokens
        .iter()
        .filter(|token| is_symbol(token, Symbol::Comma))
        .count();
    if commas > 1 {
        return Err(Stop::Other);
    }
    text.extend_from_slice(b" #(")?;
    for token in tokens {
        push_token(&mut text, token)?;
    }
    text.push(b')')?;
    Ok(text)
}
