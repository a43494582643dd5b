// A macro's arguments: their names in its definition, and their values where it is used.
use crate::pieces::{behind, cut, front, gap_size, is_gap};
use sg_text::NoMemory;
use std::alloc::Global;
use vl_pieces::{Class, is_word};

/// The values of arguments, and the size of all with the parentheses.
#[derive(Drop)]
pub struct Values<'t> {
    pub texts: Vec<&'t [u8]>,
    pub size: usize,
}

/// The names of arguments, between their parentheses. None: they aren't names with commas between them.
pub fn names_of<'t>(alloc: Global, text: &'t [u8]) -> Result<Option<Vec<&'t [u8]>>, NoMemory> {
    let mut names = Vec::new(alloc);
    let mut wants_name = true;
    let mut rest = text;
    while let [_, ..] = rest {
        let (class, piece) = front(rest);
        rest = behind(rest, piece.len());
        if is_gap(class) || is_word(piece, "\\") {
            continue;
        }
        if wants_name && class == Class::Name {
            names.push(piece)?;
        } else if wants_name || !is_word(piece, ",") {
            return Ok(None);
        }
        wants_name = !wants_name;
    }
    if wants_name && !names.is_empty() {
        return Ok(None);
    }
    Ok(Some(names))
}

fn opens(piece: &[u8]) -> bool {
    matches!(piece, b"(" | b"[" | b"{")
}

fn closes(piece: &[u8]) -> bool {
    matches!(piece, b")" | b"]" | b"}")
}

/// The values behind a macro's name. None: there are none, or no end of them.
pub fn values_of<'t>(alloc: Global, text: &'t [u8]) -> Result<Option<Values<'t>>, NoMemory> {
    let [b'(', inner @ ..] = cut(text, gap_size(text)).1 else {
        return Ok(None);
    };
    let mut texts = Vec::new(alloc);
    let mut depth: usize = 0;
    let mut value = inner;
    let mut rest = inner;
    while let [_, ..] = rest {
        let (_, piece) = front(rest);
        let end = depth == 0 && closes(piece);
        if end || depth == 0 && is_word(piece, ",") {
            texts.push(cut(value, value.len().saturating_sub(rest.len())).0)?;
            value = behind(rest, piece.len());
        }
        if end {
            let size = text.len().saturating_sub(value.len());
            return Ok(Some(Values { texts, size }));
        }
        depth = if opens(piece) {
            depth.saturating_add(1)
        } else {
            depth.saturating_sub(usize::from(closes(piece)))
        };
        rest = behind(rest, piece.len());
    }
    Ok(None)
}

/// Whether an argument has no text.
pub fn is_blank_value(text: &[u8]) -> bool {
    gap_size(text) == text.len()
}
