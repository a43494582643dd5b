// Tokens as they are spelled.
use crate::names::push_name;
use crate::spans::{span_of, text_of};
use fit_changes::Changes;
use itoa::Buffer;
use sg_logic::Value;
use sg_text::{Keyword, NoMemory};
use sg_time::Decimal;
use vl_token::{Base, Constant, Symbol, Token, TokenKind};

fn keyword_text(word: Keyword) -> &'static str {
    match word {
        Keyword::EndModule => "endmodule",
        Keyword::Input => "input",
        Keyword::Output => "output",
        Keyword::Wire => "wire",
        Keyword::Tri => "tri",
        Keyword::Supply0 => "supply0",
        Keyword::Supply1 => "supply1",
        Keyword::Reg => "reg",
        Keyword::Assign => "assign",
        Keyword::And => "and",
        Keyword::Nand => "nand",
        Keyword::Or => "or",
        Keyword::Nor => "nor",
        Keyword::Xor => "xor",
        Keyword::Xnor => "xnor",
        Keyword::Buf => "buf",
        Keyword::Not => "not",
        Keyword::Bufif0 => "bufif0",
        Keyword::Bufif1 => "bufif1",
        Keyword::Notif0 => "notif0",
        Keyword::Notif1 => "notif1",
        Keyword::Primitive => "primitive",
        Keyword::EndPrimitive => "endprimitive",
        Keyword::Table => "table",
        Keyword::EndTable => "endtable",
        Keyword::Initial => "initial",
        Keyword::Specify => "specify",
        Keyword::EndSpecify => "endspecify",
        Keyword::SpecParam => "specparam",
        Keyword::If => "if",
        Keyword::IfNone => "ifnone",
        Keyword::PulseStyleOnEvent => "pulsestyle_onevent",
        Keyword::PulseStyleOnDetect => "pulsestyle_ondetect",
        Keyword::NoShowCancelled => "noshowcancelled",
        Keyword::ShowCancelled => "showcancelled",
        Keyword::Posedge => "posedge",
        Keyword::Negedge => "negedge",
        Keyword::Edge => "edge",
    }
}

fn symbol_text(symbol: Symbol) -> &'static str {
    match symbol {
        Symbol::Parallel => "=>",
        Symbol::Full => "*>",
        Symbol::AndAndAnd => "&&&",
        Symbol::AndAnd => "&&",
        Symbol::And => "&",
        Symbol::OrOr => "||",
        Symbol::Or => "|",
        Symbol::CaseEqual => "===",
        Symbol::Equal => "==",
        Symbol::Assign => "=",
        Symbol::CaseUnequal => "!==",
        Symbol::Unequal => "!=",
        Symbol::Bang => "!",
        Symbol::TildeXor => "~^",
        Symbol::XorTilde => "^~",
        Symbol::Xor => "^",
        Symbol::Tilde => "~",
        Symbol::LeftParen => "(",
        Symbol::RightParen => ")",
        Symbol::LeftBracket => "[",
        Symbol::RightBracket => "]",
        Symbol::LeftBrace => "{",
        Symbol::RightBrace => "}",
        Symbol::Comma => ",",
        Symbol::Semicolon => ";",
        Symbol::Colon => ":",
        Symbol::Point => ".",
        Symbol::Hash => "#",
        Symbol::Plus => "+",
        Symbol::Minus => "-",
    }
}

fn push_count(text: &mut Vec<u8>, number: u64) -> Result<(), NoMemory> {
    let mut buffer = Buffer::new();
    text.extend_from_slice(buffer.format(number).as_bytes())?;
    Ok(())
}

fn push_exponent(text: &mut Vec<u8>, exponent: i32) -> Result<(), NoMemory> {
    text.push(b'e')?;
    if exponent < 0 {
        text.push(b'-')?;
    }
    push_count(text, u64::from(exponent.unsigned_abs()))
}

fn push_decimal(text: &mut Vec<u8>, value: Decimal) -> Result<(), NoMemory> {
    push_count(text, value.digits)?;
    if value.exponent == 0 {
        return Ok(());
    }
    push_exponent(text, value.exponent)
}

fn base_letter(base: Base) -> u8 {
    match base {
        Base::Binary => b'b',
        Base::Octal => b'o',
        Base::Decimal => b'd',
        Base::Hexadecimal => b'h',
    }
}

fn push_digits(text: &mut Vec<u8>, base: Base, digits: &[u8]) -> Result<(), NoMemory> {
    text.push(b'\'')?;
    text.push(base_letter(base))?;
    text.extend_from_slice(digits)?;
    Ok(())
}

fn push_constant(text: &mut Vec<u8>, constant: Constant<'_>) -> Result<(), NoMemory> {
    push_count(text, u64::from(constant.width))?;
    push_digits(text, constant.base, constant.digits)
}

fn value_letter(value: Value) -> u8 {
    match value {
        Value::Zero => b'0',
        Value::One => b'1',
        Value::X | Value::Z => b'x',
    }
}

// A token as its kind says.
fn push_kind(text: &mut Vec<u8>, kind: TokenKind<'_>) -> Result<(), NoMemory> {
    match kind {
        TokenKind::Module(_) => text.extend_from_slice(b"module")?,
        TokenKind::Word(word) => text.extend_from_slice(keyword_text(word).as_bytes())?,
        TokenKind::Symbol(symbol) => text.extend_from_slice(symbol_text(symbol).as_bytes())?,
        TokenKind::Name(name) => push_name(text, name)?,
        TokenKind::LeftOut(bytes) | TokenKind::System(bytes) | TokenKind::Other(bytes) => {
            text.extend_from_slice(bytes)?
        }
        TokenKind::Number { value, .. } => push_decimal(text, value)?,
        TokenKind::Sized(constant) => push_constant(text, constant)?,
        TokenKind::Unsized { base, digits } => push_digits(text, base, digits)?,
        TokenKind::Pair { from, to } => {
            text.push(value_letter(from))?;
            text.push(value_letter(to))?
        }
        TokenKind::Byte(byte) => text.push(byte)?,
    }
    Ok(())
}

/// Adds a token as it is spelled: by its bytes, or where a macro gave it by what it is. A name has its backslash and the blank
/// behind it, if it needs them.
pub fn push_token(
    text: &mut Vec<u8>,
    files: &[Changes<'_>],
    token: &Token<'_>,
) -> Result<(), NoMemory> {
    if let TokenKind::Name(name) = token.kind {
        return push_name(text, name);
    }
    let bytes = match span_of(files, token) {
        Some(span) => text_of(files, span),
        None => None,
    };
    match bytes {
        Some(bytes) => {
            text.extend_from_slice(bytes)?;
            Ok(())
        }
        None => push_kind(text, token.kind),
    }
}
