// The tokens of a text, or why it has none.
use crate::files::files_of;
use crate::tokens::put_kind;
use sg_text::{NoMemory, Place, Refused};
use std::alloc::{AllocError, Global};
use vl_lex::{LexKind, lex};
use vl_token::Token;

fn put_place(out: &mut String, place: Place) -> Result<(), AllocError> {
    let file = place.file;
    let byte = place.byte;
    write!(out, "{file}:{byte}")
}

fn refusal(alloc: Global, refused: Refused<LexKind>) -> Result<String, NoMemory> {
    match refused {
        Refused::NoMemory => Err(NoMemory),
        Refused::Fault { kind, place } => {
            let mut out = String::new(alloc);
            put_place(&mut out, place)?;
            write!(out, " {kind}")?;
            Ok(out)
        }
    }
}

// The kinds of the tokens, with a blank between them.
fn kinds_of(alloc: Global, tokens: &[Token<'_>]) -> Result<String, NoMemory> {
    let mut out = String::new(alloc);
    for token in tokens {
        if !out.is_empty() {
            out.push(' ')?;
        }
        put_kind(alloc, &mut out, token.kind)?;
    }
    Ok(out)
}

fn places_of(alloc: Global, tokens: &[Token<'_>]) -> Result<String, NoMemory> {
    let mut out = String::new(alloc);
    for token in tokens {
        if !out.is_empty() {
            out.push(' ')?;
        }
        put_place(&mut out, token.place)?;
    }
    Ok(out)
}

/// What the tokens are, or where and why there are none.
pub fn tokens(alloc: Global, text: &str) -> Result<String, NoMemory> {
    let files = files_of(alloc, text)?;
    match lex(alloc, &files) {
        Ok(tokens) => kinds_of(alloc, &tokens),
        Err(refused) => refusal(alloc, refused),
    }
}

/// Where the tokens stand, or where and why there are none.
pub fn places(alloc: Global, text: &str) -> Result<String, NoMemory> {
    let files = files_of(alloc, text)?;
    match lex(alloc, &files) {
        Ok(tokens) => places_of(alloc, &tokens),
        Err(refused) => refusal(alloc, refused),
    }
}
