// What is left of a part that is left out: its line feeds and its directives.
ghost use Rattle.std.specs.Prelude.{ℕ, ◌<◌, ◌≤◌, length};

use fit_changes::Changes;
use fit_items::{Span, joined, piece_of};
use sg_text::NoMemory;
use std::alloc::Global;
use vl_pieces::{Class, Mode, first_piece, is_among};
use vl_token::Token;

const LINE_FEED: u8 = b'\n';

// No text that is read is longer.
const MOST: usize = 1 << 60;

// The directives that may matter to what follows.
const KEPT: [&str; 12] = [
    "`timescale",
    "`resetall",
    "`celldefine",
    "`endcelldefine",
    "`default_nettype",
    "`define",
    "`undef",
    "`ifdef",
    "`ifndef",
    "`elsif",
    "`else",
    "`endif",
];

/// The bytes of a part that stands in one file.
pub fn whole_span(files: &[Changes<'_>], part: &[Token<'_>]) -> Option<Span> {
    let first = part.first()?;
    let last = part.last()?;
    let (_, begin) = piece_of(files, first)?;
    let (_, end) = piece_of(files, last)?;
    joined(begin, end)
}

// How many bytes stand before the next line feed.
fn line_size(text: &[u8]) -> usize
    ensures { result ≤ length text.now }
{
    match text.iter().position(|b| *b == LINE_FEED) {
        Some(size) => size,
        None => text.len(),
    }
}

fn push_feeds(kept: &mut Vec<u8>, text: &[u8]) -> Result<(), NoMemory> {
    for b in text {
        if *b == LINE_FEED {
            kept.push(LINE_FEED)?;
        }
    }
    Ok(())
}

fn greater(one: usize, other: usize) -> usize
    ensures least { one ≤ result }
    ensures most { (n : ℕ) → one ≤ n → other ≤ n → result ≤ n }
{
    if one < other { other } else { one }
}

// Whether a directive stands at the front, which is kept, and the size of the first piece or of the directive's line.
fn front_of(text: &[u8]) -> (bool, usize)
    requires { 0 < length text.now }
    ensures some { 0 < result.1 }
    ensures within { result.1 ≤ length text.now }
{
    if text.len() > MOST {
        return (false, text.len());
    }
    let (class, size) = first_piece(Mode::Plain, text);
    if class == Class::Use && is_among(&KEPT, &text[..size]) {
        (true, greater(size, line_size(text)))
    } else {
        (false, size)
    }
}

/// What is left of a text. Takes memory.
pub fn left_of(alloc: Global, text: &[u8]) -> Result<Vec<u8>, NoMemory> {
    let mut kept = Vec::new(alloc);
    let mut rest = text;
    while let [_, ..] = rest {
        let (is_kept, size) = front_of(rest);
        let (front, behind) = rest.split_at(size);
        if is_kept {
            kept.extend_from_slice(front)?;
        } else {
            push_feeds(&mut kept, front)?;
        }
        rest = behind;
    }
    Ok(kept)
}
