// Files.
use crate::cells::Reading;
use crate::changing::Pen;
use crate::counts::Count;
use crate::heads::fit_head;
use fit_changes::{Change, Rule};
use fit_delays::{has_typical, is_value, keyword_of, parts_of};
use fit_entries::{Note, add_note};
use fit_places::Netlist;
use sdf_lex::{Lexeme, Token};
use sdf_tree::{Divider, Keyword};
use sg_text::NoMemory;
use std::alloc::Global;

/// The changes that the rules ask for in a file, in order, and the counts of its entries.
#[derive(Drop)]
pub struct Asked {
    pub edits: Vec<Change>,
    pub counts: Vec<Count>,
}

// The value that ends with a token, if one does: none of its tokens is a parenthesis but the first and the last.
fn value_before<'t, 'a>(
    tokens: &'t [Token<'a>],
    first: usize,
    at: usize,
) -> Option<&'t [Token<'a>]> {
    let value = tokens.get(first..at.saturating_add(1))?;
    if is_value(value) { Some(value) } else { None }
}

// Whether there are values, and none of them has a typical part.
fn lacks_typical(tokens: &[Token<'_>]) -> bool {
    let mut first = 0;
    let mut found = false;
    for (at, token) in tokens.iter().enumerate() {
        match token.lexeme {
            Lexeme::Left => first = at,
            Lexeme::Right => {
                if let Some(value) = value_before(tokens, first, at) {
                    match has_typical(value) {
                        Some(true) => return false,
                        Some(false) => found = true,
                        None => {}
                    }
                }
            }
            _ => {}
        }
    }
    found
}

fn tell_corner(pen: &mut Pen<'_>, tokens: &[Token<'_>]) -> Result<(), NoMemory> {
    let Some(first) = tokens.first() else {
        return Ok(());
    };
    if !lacks_typical(tokens) {
        return Ok(());
    }
    let mut notes: Vec<Note> = Vec::new(pen.alloc);
    add_note(
        pen.alloc,
        &mut notes,
        Rule::Corner,
        &[b"no value has a typical part"],
    )?;
    for note in notes {
        pen.tell(first.byte as usize, note, b"")?;
    }
    Ok(())
}

fn divider_of(group: &[Token<'_>]) -> Option<Divider> {
    match group.get(2)?.lexeme {
        Lexeme::Word(bytes) => Divider::of(bytes),
        _ => None,
    }
}

/// The changes that the rules ask for in the tokens of a file. Takes time and memory in proportion to them.
pub fn asked_of<'a>(
    alloc: Global,
    text: &'a [u8],
    tokens: &[Token<'a>],
    netlist: &Netlist<'_, '_>,
) -> Result<Asked, NoMemory> {
    let mut reading = Reading {
        netlist,
        divider: Divider::Point.byte(),
        pen: Pen {
            alloc,
            text,
            edits: Vec::new(alloc),
        },
        counts: Vec::new(alloc),
    };
    tell_corner(&mut reading.pen, tokens)?;
    for part in &parts_of(alloc, tokens)? {
        match keyword_of(part) {
            Some(Keyword::Cell) => reading.add_cell(part)?,
            Some(Keyword::Divider) => {
                if let Some(divider) = divider_of(part) {
                    reading.divider = divider.byte();
                }
            }
            _ => fit_head(&mut reading.pen, part)?,
        }
    }
    Ok(Asked {
        edits: reading.pen.edits,
        counts: reading.counts,
    })
}
