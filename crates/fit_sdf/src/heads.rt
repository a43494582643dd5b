// Heads without a text, and those with numbers (IEEE 1497-2001, the header).
use crate::changing::{Pen, feeds_of, span_of};
use fit_changes::Rule;
use fit_delays::{end_of, keyword_of, push_tokens};
use fit_entries::{Note, add_note, note_exponent};
use sdf_lex::{Lexeme, Token};
use sdf_tree::Keyword;
use sg_text::NoMemory;

fn is_text_word(word: Keyword) -> bool {
    match word {
        Keyword::SdfVersion
        | Keyword::Design
        | Keyword::Date
        | Keyword::Vendor
        | Keyword::Program
        | Keyword::Version
        | Keyword::Process => true,
        _ => false,
    }
}

// What stands behind the word of a head, up to the last token.
fn inside<'t, 'a>(group: &'t [Token<'a>]) -> &'t [Token<'a>] {
    match group {
        [_, _, inside @ .., _] => inside,
        _ => &[],
    }
}

fn is_text(tokens: &[Token<'_>]) -> bool {
    match tokens {
        [one] => match one.lexeme {
            Lexeme::Text(_) => true,
            _ => false,
        },
        _ => false,
    }
}

// The bytes from the first token to the last.
fn bytes_of<'a>(text: &'a [u8], tokens: &[Token<'_>]) -> &'a [u8] {
    match (tokens.first(), tokens.last()) {
        (Some(first), Some(last)) => text.get(first.byte as usize..end_of(last)).unwrap_or(&[]),
        _ => &[],
    }
}

fn may_be_quoted(bytes: &[u8]) -> bool {
    !bytes.iter().any(|b| *b == b'"' || *b == b'\n')
}

// Writes a head with numbers anew, where one has a long exponent.
fn fit_numbers(pen: &mut Pen<'_>, group: &[Token<'_>]) -> Result<(), NoMemory> {
    let mut notes: Vec<Note> = Vec::new(pen.alloc);
    note_exponent(pen.alloc, group, &mut notes)?;
    let Some((from, end)) = span_of(group) else {
        return Ok(());
    };
    let mut made = Vec::new(pen.alloc);
    push_tokens(&mut made, group)?;
    made.extend_from_slice(&feeds_of(pen.alloc, pen.text, from, end)?)?;
    pen.change(from, end, made, notes, b"")
}

// Quotes what stands in a head, if it isn't a text.
fn quote(pen: &mut Pen<'_>, group: &[Token<'_>]) -> Result<(), NoMemory> {
    let [_, name, .., last] = group else {
        return Ok(());
    };
    let tokens = inside(group);
    let bytes = bytes_of(pen.text, tokens);
    if is_text(tokens) || !may_be_quoted(bytes) {
        return Ok(());
    }
    let from = end_of(name);
    let end = last.byte as usize;
    let mut made = Vec::from_slice(pen.alloc, b" \"")?;
    made.extend_from_slice(bytes)?;
    made.push(b'"')?;
    made.extend_from_slice(&feeds_of(pen.alloc, pen.text, from, end)?)?;
    let mut notes: Vec<Note> = Vec::new(pen.alloc);
    add_note(
        pen.alloc,
        &mut notes,
        Rule::Head,
        &[b"a text stands between quotes"],
    )?;
    pen.change(from, end, made, notes, b"")
}

/// Quotes what stands in a head that wants a text, and shortens exponents in one that has numbers.
pub fn fit_head(pen: &mut Pen<'_>, group: &[Token<'_>]) -> Result<(), NoMemory> {
    match keyword_of(group) {
        Some(Keyword::Voltage | Keyword::Temperature) => fit_numbers(pen, group),
        Some(word) if is_text_word(word) => quote(pen, group),
        _ => Ok(()),
    }
}
