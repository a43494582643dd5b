// The text of tokens.
use fit_items::push_name;
use itoa::Buffer;
use sg_logic::Value;
use sg_text::{Keyword, NoMemory};
use sg_time::Decimal;
use std::alloc::Global;
use vl_token::{Base, Symbol, TokenKind};

fn symbol_text(symbol: Symbol) -> Option<&'static str> {
    let text = match symbol {
        Symbol::AndAndAnd => "&&&",
        Symbol::AndAnd => "&&",
        Symbol::And => "&",
        Symbol::OrOr => "||",
        Symbol::Or => "|",
        Symbol::CaseEqual => "===",
        Symbol::Equal => "==",
        Symbol::CaseUnequal => "!==",
        Symbol::Unequal => "!=",
        Symbol::Bang => "!",
        Symbol::TildeXor => "~^",
        Symbol::XorTilde => "^~",
        Symbol::Xor => "^",
        Symbol::Tilde => "~",
        Symbol::LeftParen => "(",
        Symbol::RightParen => ")",
        Symbol::LeftBracket => "[",
        Symbol::RightBracket => "]",
        Symbol::Comma => ",",
        Symbol::Semicolon => ";",
        Symbol::Colon => ":",
        Symbol::Minus => "-",
        _ => return None,
    };
    Some(text)
}

fn keyword_text(word: Keyword) -> Option<&'static str> {
    match word {
        Keyword::Posedge => Some("posedge"),
        Keyword::Negedge => Some("negedge"),
        Keyword::Edge => Some("edge"),
        _ => None,
    }
}

fn base_text(base: Base) -> &'static str {
    match base {
        Base::Binary => "'b",
        Base::Octal => "'o",
        Base::Decimal => "'d",
        Base::Hexadecimal => "'h",
    }
}

fn value_byte(value: Value) -> u8 {
    match value {
        Value::Zero => b'0',
        Value::One => b'1',
        Value::X | Value::Z => b'x',
    }
}

fn push_digits(text: &mut Vec<u8>, digits: u64) -> Result<(), NoMemory> {
    let mut buffer = Buffer::new();
    text.extend_from_slice(buffer.format(digits).as_bytes())?;
    Ok(())
}

// Digits with so many of them behind the point.
fn push_point(text: &mut Vec<u8>, digits: u64, behind: usize) -> Result<(), NoMemory> {
    let mut buffer = Buffer::new();
    let all = buffer.format(digits).as_bytes();
    let front = all.len().saturating_sub(behind);
    if front == 0 {
        text.push(b'0')?;
    } else {
        text.extend_from_slice(&all[..front])?;
    }
    text.push(b'.')?;
    for _ in all.len()..behind {
        text.push(b'0')?;
    }
    text.extend_from_slice(&all[front..])?;
    Ok(())
}

// A number of which it is known whether it is digits alone; false where no spelling is at hand.
fn push_number(text: &mut Vec<u8>, value: Decimal, whole: bool) -> Result<bool, NoMemory> {
    if value.negative {
        return Ok(false);
    }
    match value.exponent {
        0 if whole => push_digits(text, value.digits)?,
        exponent @ -18..=-1 => {
            push_point(text, value.digits, usize::try_from(-exponent).unwrap_or(0))?;
        }
        exponent @ 0..=99 => {
            push_digits(text, value.digits)?;
            text.push(b'e')?;
            push_digits(text, u64::try_from(exponent).unwrap_or(0))?;
        }
        _ => return Ok(false),
    }
    Ok(true)
}

fn push_some(text: &mut Vec<u8>, word: Option<&str>) -> Result<bool, NoMemory> {
    match word {
        Some(word) => {
            text.extend_from_slice(word.as_bytes())?;
            Ok(true)
        }
        None => Ok(false),
    }
}

fn push_kind(text: &mut Vec<u8>, kind: TokenKind<'_>) -> Result<bool, NoMemory> {
    match kind {
        TokenKind::Symbol(symbol) => return push_some(text, symbol_text(symbol)),
        TokenKind::Word(word) => return push_some(text, keyword_text(word)),
        TokenKind::Number { value, whole } => return push_number(text, value, whole),
        TokenKind::Name(name) => push_name(text, name)?,
        TokenKind::System(name) => text.extend_from_slice(name)?,
        TokenKind::Sized(constant) => {
            push_digits(text, u64::from(constant.width))?;
            text.extend_from_slice(base_text(constant.base).as_bytes())?;
            text.extend_from_slice(constant.digits)?;
        }
        TokenKind::Unsized { base, digits } => {
            text.extend_from_slice(base_text(base).as_bytes())?;
            text.extend_from_slice(digits)?;
        }
        TokenKind::Pair { from, to } => {
            text.push(value_byte(from))?;
            text.push(value_byte(to))?;
        }
        _ => return Ok(false),
    }
    Ok(true)
}

// Whether a blank stands before a token.
fn is_apart(before: TokenKind<'_>, kind: TokenKind<'_>) -> bool {
    match (before, kind) {
        (TokenKind::Symbol(Symbol::Comma), TokenKind::Symbol(Symbol::Comma)) => true,
        (
            TokenKind::Symbol(
                Symbol::LeftParen | Symbol::LeftBracket | Symbol::Minus | Symbol::Colon,
            ),
            _,
        ) => false,
        (TokenKind::Symbol(Symbol::Tilde | Symbol::Bang), TokenKind::Name(_)) => false,
        (_, TokenKind::Symbol(symbol)) => !matches!(
            symbol,
            Symbol::RightParen
                | Symbol::RightBracket
                | Symbol::LeftBracket
                | Symbol::Comma
                | Symbol::Colon
                | Symbol::Semicolon
        ),
        _ => true,
    }
}

/// The text of the tokens of checks, if each has one. Takes memory.
pub fn text_of_kinds(alloc: Global, kinds: &[TokenKind<'_>]) -> Result<Option<Vec<u8>>, NoMemory> {
    let mut text = Vec::new(alloc);
    let mut before: Option<TokenKind<'_>> = None;
    for kind in kinds {
        if before.is_some_and(|before| is_apart(before, *kind)) {
            text.push(b' ')?;
        }
        if !push_kind(&mut text, *kind)? {
            return Ok(None);
        }
        before = Some(*kind);
    }
    Ok(Some(text))
}
