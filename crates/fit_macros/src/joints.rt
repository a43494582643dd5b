// Pieces put one behind another, with a blank between them where they would else be one.
use crate::pieces::feeds;
use sg_text::{NoMemory, is_name_byte};
use std::alloc::Global;
use vl_pieces::{Class, is_blank};

/// A text that is put together from pieces, all on one line.
#[derive(Drop)]
pub struct Joint {
    text: Vec<u8>,
    // the last byte of it, or the one before it
    last: u8,
    // a blank is wanted before the next piece
    parted: bool,
    // the next piece comes from another text
    seam: bool,
    // the last piece is an escaped name, which ends at a blank alone
    escaped: bool,
}

// Whether two bytes of pieces that touch may be of one piece. A width and its base may: they are a constant.
fn may_join(last: u8, first: u8) -> bool {
    let marks = b"&|=<>!~^*/+-:";
    is_name_byte(last) && is_name_byte(first)
        || last == b'.' && first.is_ascii_digit()
        || last.is_ascii_digit() && first == b'.'
        || marks.contains(&last) && marks.contains(&first)
        || last == b'(' && first == b'*'
        || last == b'`'
}

/// Whether a byte is the base of a constant, behind its apostrophe.
pub fn is_base(b: u8) -> bool {
    b"bBoOdDhH".contains(&b)
}

// The byte that the next piece touches. A constant's digits may touch its base.
fn touched(before: u8, piece: &[u8], last: u8) -> u8 {
    match piece {
        [base] if before == b'\'' && is_base(*base) => before,
        _ => last,
    }
}

impl Joint {
    /// A text behind a byte.
    pub fn behind(alloc: Global, last: u8) -> Joint {
        Joint {
            text: Vec::new(alloc),
            last,
            parted: false,
            seam: true,
            escaped: false,
        }
    }

    /// How many bytes it has.
    pub fn len(&self) -> usize {
        self.text.len()
    }

    /// A blank is wanted before the next piece.
    pub fn part(&mut self) {
        self.parted = true;
    }

    /// The next piece comes from another text.
    pub fn seam(&mut self) {
        self.seam = true;
    }

    fn wants_blank(&self, first: u8) -> bool {
        let wants = self.escaped || self.parted || self.seam && may_join(self.last, first);
        wants && !is_blank(self.last)
    }

    // Adds bytes as they are, but for line feeds.
    fn push_bytes(&mut self, bytes: &[u8]) -> Result<(), NoMemory> {
        if feeds(bytes) == 0 {
            self.text.extend_from_slice(bytes)?;
            return Ok(());
        }
        for b in bytes {
            self.text.push(if *b == b'\n' { b' ' } else { *b })?;
        }
        Ok(())
    }

    /// Adds a piece.
    pub fn push(&mut self, class: Class, piece: &[u8]) -> Result<(), NoMemory> {
        let (Some(first), Some(last)) = (piece.first(), piece.last()) else {
            return Ok(());
        };
        if self.wants_blank(*first) {
            self.text.push(b' ')?;
        }
        self.push_bytes(piece)?;
        self.last = touched(self.last, piece, *last);
        self.parted = false;
        self.seam = false;
        self.escaped = class == Class::Escaped;
        Ok(())
    }

    /// Adds a text that was put together by itself.
    pub fn push_text(&mut self, text: &[u8]) -> Result<(), NoMemory> {
        self.seam();
        self.push(Class::Other, text)?;
        self.seam();
        Ok(())
    }

    /// The text, before a byte and with so many line feeds behind it.
    pub fn finish(self, next: u8, feeds: usize) -> Result<Vec<u8>, NoMemory> {
        let wants = self.escaped || may_join(self.last, next);
        let Joint { mut text, .. } = self;
        if wants && feeds == 0 && !is_blank(next) {
            text.push(b' ')?;
        }
        for _ in 0..feeds {
            text.push(b'\n')?;
        }
        Ok(text)
    }
}
