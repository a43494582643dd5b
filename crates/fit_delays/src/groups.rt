// What stands between parentheses, part by part.
use sdf_lex::{Lexeme, Token};
use sg_text::NoMemory;
use std::alloc::Global;

/// Some of a list of tokens, none where there aren't as many.
pub fn slice<'t, 'a>(tokens: &'t [Token<'a>], first: usize, end: usize) -> &'t [Token<'a>] {
    if first <= end && end <= tokens.len() {
        &tokens[first..end]
    } else {
        &tokens[..0]
    }
}

/// Whether a part begins with a parenthesis.
pub fn is_group(part: &[Token<'_>]) -> bool {
    match part.first() {
        Some(token) => token.lexeme == Lexeme::Left,
        None => false,
    }
}

// Whether a token goes on the word before it: a select, a colon, and what is behind a colon.
fn goes_on(before: Option<Lexeme<'_>>, lexeme: Lexeme<'_>) -> bool {
    match lexeme {
        Lexeme::Select(_) | Lexeme::Colon => true,
        _ => before == Some(Lexeme::Colon),
    }
}

/// What stands between the parentheses of a group: groups and words, a port with its bits as one. Takes memory.
pub fn parts_of<'t, 'a>(
    alloc: Global,
    group: &'t [Token<'a>],
) -> Result<Vec<&'t [Token<'a>]>, NoMemory> {
    let mut parts = Vec::new(alloc);
    let mut depth: u32 = 0;
    let mut first = 0;
    let mut before = None;
    for (at, token) in group.iter().enumerate() {
        let end = at.saturating_add(1);
        match token.lexeme {
            Lexeme::Left => {
                depth = depth.saturating_add(1);
                if depth == 2 {
                    first = at;
                }
            }
            Lexeme::Right => {
                if depth == 2 {
                    parts.push(slice(group, first, end))?;
                }
                depth = depth.saturating_sub(1);
            }
            lexeme if depth == 1 => {
                if goes_on(before, lexeme) {
                    let _ = parts.pop();
                } else {
                    first = at;
                }
                parts.push(slice(group, first, end))?;
            }
            _ => {}
        }
        before = Some(token.lexeme);
    }
    Ok(parts)
}
