// The tokens of a text, each behind its byte, or where and why it has none.
use sdf_lex::{LexKind, Lexeme, Token, before_select, lex};
use sg_text::Refused;
use std::alloc::{AllocError, Global};

fn put_text(out: &mut String, kind: &str, text: &[u8]) -> Result<(), AllocError> {
    out.push_str(kind)?;
    for byte in text {
        out.push(char::from(*byte))?;
    }
    Ok(())
}

fn put_token(out: &mut String, token: Token<'_>) -> Result<(), AllocError> {
    match token.lexeme {
        Lexeme::Word(word) => put_text(out, "", word),
        Lexeme::Selected { size, whole } => {
            put_text(out, "", whole)?;
            put_text(out, "=", before_select(whole, size))
        }
        Lexeme::Select(index) => write!(out, "+{index}"),
        Lexeme::Text(text) => put_text(out, "text:", text),
        Lexeme::UnendedText => out.push_str("unended"),
        Lexeme::Operator(op) => write!(out, "{op:?}"),
        Lexeme::Left => out.push('('),
        Lexeme::Right => out.push(')'),
        Lexeme::Colon => out.push(':'),
        Lexeme::Star => out.push('*'),
        Lexeme::Other(b) => put_text(out, "other:", &[b]),
    }
}

fn shown(alloc: Global, tokens: &[Token<'_>]) -> Result<String, AllocError> {
    let mut out = String::new(alloc);
    for token in tokens {
        if !out.is_empty() {
            out.push(' ')?;
        }
        let byte = token.byte;
        write!(out, "{byte}.")?;
        put_token(&mut out, *token)?;
    }
    Ok(out)
}

/// The tokens, or why there are none.
pub fn tokens(alloc: Global, text: &[u8]) -> Result<String, AllocError> {
    match lex(alloc, text) {
        Ok(tokens) => shown(alloc, &tokens),
        Err(Refused::Fault { kind, place }) => format!(in alloc; "{} {kind:?}", place.byte),
        Err(Refused::NoMemory) => Err(AllocError),
    }
}
