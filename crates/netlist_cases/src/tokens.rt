// What a token is, as text: a symbol as it is spelled, and any other token behind its kind.
use sg_logic::Value;
use sg_text::NoMemory;
use std::alloc::{AllocError, Global};
use vl_token::{Mark, Symbol, TokenKind, symbol_of, unsized_bits};

fn put_text(out: &mut String, kind: &str, text: &[u8]) -> Result<(), AllocError> {
    out.push_str(kind)?;
    for byte in text {
        out.push(char::from(*byte))?;
    }
    Ok(())
}

// Unit and precision as powers of ten seconds.
fn put_mark(out: &mut String, mark: Mark) -> Result<(), AllocError> {
    let unit = mark.scale.unit.power;
    let precision = mark.scale.precision.power;
    write!(out, "module({unit}/{precision}")?;
    if mark.cell {
        out.push_str(" cell")?;
    }
    if !mark.implicit {
        out.push_str(" explicit")?;
    }
    out.push(')')
}

fn put_bits(out: &mut String, bits: &[Value]) -> Result<(), AllocError> {
    for bit in bits {
        out.push(match bit {
            Value::Zero => '0',
            Value::One => '1',
            Value::X => 'x',
            Value::Z => 'z',
        })?;
    }
    Ok(())
}

const SPELLINGS: [&str; 30] = [
    "=>", "*>", "&&&", "&&", "&", "||", "|", "===", "==", "=", "!==", "!=", "!", "~^", "^~", "^",
    "~", "(", ")", "[", "]", "{", "}", ",", ";", ":", ".", "#", "+", "-",
];

fn put_symbol(out: &mut String, symbol: Symbol) -> Result<(), AllocError> {
    for spelling in SPELLINGS {
        if symbol_of(spelling.as_bytes()) == Some(symbol) {
            out.push_str(spelling)?;
        }
    }
    Ok(())
}

fn put_constant(alloc: Global, out: &mut String, kind: TokenKind<'_>) -> Result<(), NoMemory> {
    match kind {
        TokenKind::Sized(constant) => {
            let width = constant.width;
            write!(out, "bits{width}:")?;
            put_bits(out, &constant.bits(alloc)?)?;
        }
        TokenKind::Unsized { base, digits } => {
            out.push_str("bits:")?;
            put_bits(out, &unsized_bits(alloc, base, digits)?)?;
        }
        _ => {}
    }
    Ok(())
}

pub fn put_kind(alloc: Global, out: &mut String, kind: TokenKind<'_>) -> Result<(), NoMemory> {
    match kind {
        TokenKind::Module(mark) => put_mark(out, mark)?,
        TokenKind::Word(word) => write!(out, "word:{word:?}")?,
        TokenKind::LeftOut(text) => put_text(out, "left-out:", text)?,
        TokenKind::Name(text) => put_text(out, "name:", text)?,
        TokenKind::System(text) => put_text(out, "system:", text)?,
        TokenKind::Number { value, whole } => {
            let digits = value.digits;
            let exponent = value.exponent;
            if whole {
                write!(out, "number:{digits}")?;
            } else {
                write!(out, "decimal:{digits}e{exponent}")?;
            }
        }
        TokenKind::Sized(_) | TokenKind::Unsized { .. } => put_constant(alloc, out, kind)?,
        TokenKind::Pair { from, to } => {
            out.push_str("pair:")?;
            put_bits(out, &[from, to])?;
        }
        TokenKind::Symbol(symbol) => put_symbol(out, symbol)?,
        TokenKind::Byte(byte) => put_text(out, "byte:", &[byte])?,
        TokenKind::Other(text) => put_text(out, "other:", text)?,
    }
    Ok(())
}
