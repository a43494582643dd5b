// Ports of entries.
use crate::groups::is_group;
use crate::spelling::push_integer;
use sdf_lex::{Lexeme, Token, before_select};
use sg_text::NoMemory;

// So many digits have no sum that is too large.
const MOST_DIGITS: usize = 9;

/// Which bits of a port are meant.
#[derive(Clone, Copy)]
pub enum Bits {
    All,
    One(i64),
    /// From one to another, as `d[3:0]` has them.
    Some { left: i64, right: i64 },
}

/// A port as a file writes it, and its bits.
#[derive(Clone, Copy)]
pub struct Port<'a> {
    pub path: &'a [u8],
    pub bits: Bits,
}

fn digits_of(text: &[u8]) -> Option<i64> {
    if text.is_empty() || text.len() > MOST_DIGITS {
        return None;
    }
    let mut number: i64 = 0;
    for b in text {
        if !b.is_ascii_digit() {
            return None;
        }
        let digit = i64::from(b.saturating_sub(b'0'));
        number = number.saturating_mul(10).saturating_add(digit);
    }
    Some(number)
}

fn integer_of(text: &[u8]) -> Option<i64> {
    match text {
        [b'-', digits @ ..] => Some(digits_of(digits)?.saturating_neg()),
        _ => digits_of(text),
    }
}

// `d[3` before a colon, and `0]` behind it.
fn range_port<'a>(before: &'a [u8], behind: &'a [u8]) -> Option<Port<'a>> {
    let [right @ .., b']'] = behind else {
        return None;
    };
    let at = before.iter().rposition(|b| *b == b'[')?;
    let left = integer_of(before.get(at.saturating_add(1)..)?)?;
    let right = integer_of(right)?;
    Some(Port {
        path: before.get(..at)?,
        bits: Bits::Some { left, right },
    })
}

/// The port that a part is, if it is one.
pub fn port_of<'a>(part: &[Token<'a>]) -> Option<Port<'a>> {
    if is_group(part) {
        return None;
    }
    match part {
        [one] => match one.lexeme {
            Lexeme::Word(path) => Some(Port {
                path,
                bits: Bits::All,
            }),
            _ => None,
        },
        [one, two] => match (one.lexeme, two.lexeme) {
            (Lexeme::Selected { size, whole }, Lexeme::Select(n)) => Some(Port {
                path: before_select(whole, size),
                bits: Bits::One(n),
            }),
            _ => None,
        },
        [one, _, two] => match (one.lexeme, two.lexeme) {
            (Lexeme::Word(before), Lexeme::Word(behind)) => range_port(before, behind),
            _ => None,
        },
        _ => None,
    }
}

/// Adds a port.
pub fn push_port(text: &mut Vec<u8>, port: Port<'_>) -> Result<(), NoMemory> {
    text.extend_from_slice(port.path)?;
    match port.bits {
        Bits::All => return Ok(()),
        Bits::One(n) => {
            text.push(b'[')?;
            push_integer(text, n)?;
        }
        Bits::Some { left, right } => {
            text.push(b'[')?;
            push_integer(text, left)?;
            text.push(b':')?;
            push_integer(text, right)?;
        }
    }
    text.push(b']')?;
    Ok(())
}
