// A text cut into lines, and lines into words.
ghost use Rattle.std.specs.Prelude.{◌≡◌, ◌+◌, All, ◌<◌, ◌≤◌, ◌==◌, ◌≢◌, ◌++◌, ◌∷◌, [], List, ℕ, MatchOption, IfOk, IfSome, length, map, position, filter, nat_lt};
ghost use Rattle.std.specs.List.{prefix_len, slice_split};
ghost use Rattle.stim_read.specs.Lines.{is_blank, without_return, lines, words};
ghost use Rattle.stim_read.specs.Seen.{line_seen};

use std::alloc::{AllocError, Global};

/// A line, and the place of its first byte in the text.
#[derive(Clone, Copy, Debug)]
pub struct Line<'a> {
    pub start: usize,
    pub bytes: &'a [u8],
}

// What is before the CR at the end.
fn before_return(row: &[u8]) -> Option<&[u8]>
    ensures { MatchOption result ((front : List ℕ) → row.now ≢ front ++ 13 ∷ []) (λ front. row.now ≡ front.now ++ 13 ∷ []) }
{
    match row {
        [front @ .., b'\r'] => Some(front),
        _ => None,
    }
}

#[tactic(auto, using(crate::proofs::LineLaws::return_dropped, crate::proofs::LineLaws::no_return, crate::proofs::LineLaws::shorter))]
fn without_return(row: &[u8]) -> &[u8]
    ensures row { result.now ≡ without_return row.now }
    ensures within { length result.now ≤ length row.now }
{
    match before_return(row) {
        Some(front) => front,
        None => row,
    }
}

// Where the first LF stands.
fn feed_at(text: &[u8]) -> Option<usize>
    ensures place { result ≡ position (λ b. b == 10) text.now }
    ensures within { IfSome result (λ n. n < length text.now) }
{
    text.iter().position(|b| *b == b'\n')
}

/// The lines of a text.
pub fn lines_of(alloc: Global, text: &[u8]) -> Result<Vec<Line<'_>>, AllocError>
    ensures lines { IfOk result (λ made. map (λ l. line_seen l) made.items ≡ lines text.now) }
    ensures inside { IfOk result (λ made. All (λ l. l.start + length l.bytes.now ≤ length text.now) made.items) }
{
    let mut made = Vec::new(alloc);
    let mut start = 0;
    while let Some(size) = feed_at(&text[start..]) {
        let row = &text[start..start + size];
        made.push(Line {
            start,
            bytes: without_return(row),
        })?;
        start += size + 1;
    }
    made.push(Line {
        start,
        bytes: &text[start..],
    })?;
    Ok(made)
}

fn is_blank(byte: u8) -> bool
    ensures { result ≡ is_blank byte }
{
    byte == b' ' || byte == b'\t'
}

/// How many blanks a line begins with.
pub fn indent(line: &[u8]) -> usize
    ensures size { result ≡ prefix_len is_blank line.now }
    ensures within { result ≤ length line.now }
{
    line.iter().take_while(|b| is_blank(**b)).count()
}

fn parts_of(alloc: Global, line: &[u8]) -> Result<Vec<&[u8]>, AllocError>
    ensures { IfOk result (λ parts. map (λ w. w.now) parts.items ≡ slice_split is_blank line.now) }
{
    line.split(|b| is_blank(*b)).collect(alloc)
}

fn drop_empty(parts: &mut Vec<&[u8]>)
    ensures { parts.new.items ≡ filter (λ w. nat_lt 0 (length w.now)) parts.old.items }
{
    parts.retain(|part| part.len() > 0);
}

/// The words of a line.
pub fn words_of(alloc: Global, line: &[u8]) -> Result<Vec<&[u8]>, AllocError>
    ensures { IfOk result (λ made. map (λ w. w.now) made.items ≡ words line.now) }
{
    let mut parts = parts_of(alloc, line)?;
    drop_empty(&mut parts);
    Ok(parts)
}
