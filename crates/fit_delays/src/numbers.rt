// Numbers, and values for three corners.
use crate::groups::is_group;
use sdf_lex::{Lexeme, Token};
use sg_text::NoMemory;
use sg_time::Decimal;

// No file has a word of so many bytes.
const LONGEST: usize = 1 << 30;

fn is_sign(b: u8) -> bool {
    b == b'+' || b == b'-'
}

fn begins_number(word: &[u8]) -> bool {
    match word.first() {
        Some(b) => b.is_ascii_digit() || is_sign(*b) || *b == b'.',
        None => false,
    }
}

// What stands before the digits of an exponent, and the digits.
fn exponent_of(word: &[u8]) -> Option<(&[u8], &[u8])> {
    let at = word.iter().position(|b| *b == b'e' || *b == b'E')?;
    let front = match word.get(at.saturating_add(1)) {
        Some(b) if is_sign(*b) => at.saturating_add(2),
        _ => at.saturating_add(1),
    };
    Some((word.get(..front)?, word.get(front..)?))
}

fn without_zeros(digits: &[u8]) -> &[u8] {
    let mut rest = digits;
    while let [b'0', tail @ ..] = rest {
        rest = tail;
    }
    rest
}

// A number whose exponent has zeros in front and more than two digits: what stands before it, and its digits without them.
fn long_exponent(word: &[u8]) -> Option<(&[u8], &[u8])> {
    if !begins_number(word) {
        return None;
    }
    let (front, digits) = exponent_of(word)?;
    if digits.len() < 3 || !digits.iter().all(|b| b.is_ascii_digit()) {
        return None;
    }
    match without_zeros(digits) {
        [] => Some((front, b"0")),
        left if left.len() < digits.len() => Some((front, left)),
        _ => None,
    }
}

/// Whether a word among the tokens is a number whose exponent has more than two digits because of zeros in front.
pub fn has_long_exponent(tokens: &[Token<'_>]) -> bool {
    tokens.iter().any(|token| match token.lexeme {
        Lexeme::Word(word) => long_exponent(word).is_some(),
        _ => false,
    })
}

/// Adds a word, a number without zeros in front of its exponent.
pub fn push_number(text: &mut Vec<u8>, word: &[u8]) -> Result<(), NoMemory> {
    match long_exponent(word) {
        Some((front, digits)) => {
            text.extend_from_slice(front)?;
            text.extend_from_slice(digits)?;
        }
        None => text.extend_from_slice(word)?,
    }
    Ok(())
}

// Whether a word stands there: what is behind an edge's word, and not behind a number.
fn is_word(token: Option<&Token<'_>>) -> bool {
    match token {
        Some(token) => match token.lexeme {
            Lexeme::Word(_) | Lexeme::Selected { .. } => true,
            _ => false,
        },
        None => false,
    }
}

/// Whether a part is a value or a list of them: a group that begins with a number, a colon or a value, or an empty one.
pub fn is_value(part: &[Token<'_>]) -> bool {
    if !is_group(part) {
        return false;
    }
    match part.get(1) {
        Some(token) => match token.lexeme {
            Lexeme::Word(word) => begins_number(word) && !is_word(part.get(2)),
            Lexeme::Left | Lexeme::Right | Lexeme::Colon => true,
            _ => false,
        },
        None => false,
    }
}

/// A number for each corner, or none.
#[derive(Clone, Copy)]
pub struct Corners<'a> {
    pub min: Option<&'a [u8]>,
    pub typ: Option<&'a [u8]>,
    pub max: Option<&'a [u8]>,
}

const NOTHING: Corners<'static> = Corners {
    min: None,
    typ: None,
    max: None,
};

// With a number behind so many colons.
fn with_number<'a>(corners: Corners<'a>, colons: u32, word: &'a [u8]) -> Corners<'a> {
    match colons {
        0 => Corners {
            min: Some(word),
            typ: corners.typ,
            max: corners.max,
        },
        1 => Corners {
            min: corners.min,
            typ: Some(word),
            max: corners.max,
        },
        _ => Corners {
            min: corners.min,
            typ: corners.typ,
            max: Some(word),
        },
    }
}

/// The numbers of a value: a single one is that of all corners.
pub fn corners_of<'a>(value: &[Token<'a>]) -> Corners<'a> {
    let mut corners = NOTHING;
    let mut colons: u32 = 0;
    for token in value {
        match token.lexeme {
            Lexeme::Colon => colons = colons.saturating_add(1),
            Lexeme::Word(word) => corners = with_number(corners, colons, word),
            _ => {}
        }
    }
    if colons > 0 {
        return corners;
    }
    Corners {
        min: corners.min,
        typ: corners.min,
        max: corners.min,
    }
}

/// Whether a value has a number for the typical corner; None where it has none at all.
pub fn has_typical(value: &[Token<'_>]) -> Option<bool> {
    let corners = corners_of(value);
    match (corners.min, corners.typ, corners.max) {
        (_, Some(_), _) => Some(true),
        (None, None, None) => None,
        _ => Some(false),
    }
}

fn decimal_of(word: &[u8]) -> Option<Decimal> {
    if word.len() >= LONGEST {
        return None;
    }
    Decimal::read(word).ok()
}

// How often a decimal has the lesser of two powers of ten, its own and another's, as far as that tells them apart: its digits are fewer
// than 10^18.
fn size_beside(decimal: Decimal, other: Decimal) -> u128 {
    let places = i64::from(decimal.exponent).saturating_sub(i64::from(other.exponent));
    let mut size = u128::from(decimal.digits);
    for place in 0..18i64 {
        if place < places {
            size = size.saturating_mul(10);
        }
    }
    size
}

fn is_below(one: Decimal, other: Decimal) -> bool {
    let size = size_beside(one, other);
    let other_size = size_beside(other, one);
    match (one.negative, other.negative) {
        (false, false) => size < other_size,
        (false, true) => false,
        (true, false) => size > 0 || other_size > 0,
        (true, true) => other_size < size,
    }
}

// The larger of two numbers, or the one that is there.
fn larger<'a>(one: Option<&'a [u8]>, other: Option<&'a [u8]>) -> Option<&'a [u8]> {
    let (Some(first), Some(second)) = (one, other) else {
        return one.or(other);
    };
    match (decimal_of(first), decimal_of(second)) {
        (Some(a), Some(b)) if is_below(a, b) => Some(second),
        _ => Some(first),
    }
}

// The smaller of two numbers, or the one that is there.
fn smaller<'a>(one: Option<&'a [u8]>, other: Option<&'a [u8]>) -> Option<&'a [u8]> {
    let (Some(first), Some(second)) = (one, other) else {
        return one.or(other);
    };
    match (decimal_of(first), decimal_of(second)) {
        (Some(a), Some(b)) if is_below(b, a) => Some(second),
        _ => Some(first),
    }
}

/// The larger number of two for each corner.
pub fn larger_of<'a>(one: Corners<'a>, other: Corners<'a>) -> Corners<'a> {
    Corners {
        min: larger(one.min, other.min),
        typ: larger(one.typ, other.typ),
        max: larger(one.max, other.max),
    }
}

/// The smaller number of two for each corner.
pub fn smaller_of<'a>(one: Corners<'a>, other: Corners<'a>) -> Corners<'a> {
    Corners {
        min: smaller(one.min, other.min),
        typ: smaller(one.typ, other.typ),
        max: smaller(one.max, other.max),
    }
}

fn push_corner(text: &mut Vec<u8>, number: Option<&[u8]>) -> Result<(), NoMemory> {
    match number {
        Some(word) => push_number(text, word),
        None => Ok(()),
    }
}

/// Adds a value: one number where it is that of all corners.
pub fn push_corners(text: &mut Vec<u8>, corners: Corners<'_>) -> Result<(), NoMemory> {
    text.push(b'(')?;
    push_corner(text, corners.min)?;
    if corners.min != corners.typ || corners.typ != corners.max {
        text.push(b':')?;
        push_corner(text, corners.typ)?;
        text.push(b':')?;
        push_corner(text, corners.max)?;
    }
    text.push(b')')?;
    Ok(())
}
