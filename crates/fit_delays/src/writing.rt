// Entries as they are written.
use crate::conditions::Condition;
use crate::drafts::{Draft, When};
use crate::numbers::push_corners;
use crate::ports::push_port;
use crate::spelling::push_tokens;
use crate::terms::Term;
use sdf_tree::Keyword;
use sg_text::NoMemory;

/// Adds a word of the grammar: one of an edge in small letters, others in large ones.
pub fn push_word(text: &mut Vec<u8>, word: Keyword) -> Result<(), NoMemory> {
    for b in word.spelling().as_bytes() {
        match word {
            Keyword::Posedge | Keyword::Negedge => text.push(*b)?,
            _ => text.push(b.to_ascii_uppercase())?,
        }
    }
    Ok(())
}

fn push_condition(text: &mut Vec<u8>, condition: &Condition) -> Result<(), NoMemory> {
    text.extend_from_slice(b"(COND ")?;
    text.extend_from_slice(&condition.spelled)?;
    text.push(b' ')?;
    Ok(())
}

/// Adds a port with its edge and its condition.
pub fn push_term(text: &mut Vec<u8>, term: &Term<'_>) -> Result<(), NoMemory> {
    if let Some(condition) = &term.condition {
        push_condition(text, condition)?;
    }
    match term.edge {
        Some(edge) => {
            text.push(b'(')?;
            push_word(text, edge)?;
            text.push(b' ')?;
            push_port(text, term.port)?;
            text.push(b')')?;
        }
        None => push_port(text, term.port)?,
    }
    if term.condition.is_some() {
        text.push(b')')?;
    }
    Ok(())
}

/// Adds the word of an entry and its ports, without a parenthesis: what tells entries for one place from others.
pub fn push_front(text: &mut Vec<u8>, draft: &Draft<'_, '_>) -> Result<(), NoMemory> {
    push_word(text, draft.word)?;
    for term in &draft.terms {
        text.push(b' ')?;
        push_term(text, term)?;
    }
    Ok(())
}

fn push_values(text: &mut Vec<u8>, draft: &Draft<'_, '_>) -> Result<(), NoMemory> {
    if let Some(limits) = &draft.limits {
        for limit in limits {
            text.push(b' ')?;
            push_corners(text, *limit)?;
        }
        return Ok(());
    }
    for value in &draft.values {
        text.push(b' ')?;
        push_tokens(text, value)?;
    }
    for _ in 0..draft.empty_values {
        text.extend_from_slice(b" ()")?;
    }
    Ok(())
}

/// Adds an entry, on one line.
pub fn push_draft(text: &mut Vec<u8>, draft: &Draft<'_, '_>) -> Result<(), NoMemory> {
    match &draft.when {
        When::Always => {}
        When::If(condition) => push_condition(text, condition)?,
        When::Else => text.extend_from_slice(b"(CONDELSE ")?,
    }
    text.push(b'(')?;
    push_front(text, draft)?;
    push_values(text, draft)?;
    text.push(b')')?;
    match &draft.when {
        When::Always => {}
        When::If(_) | When::Else => text.push(b')')?,
    }
    Ok(())
}
