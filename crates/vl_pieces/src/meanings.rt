// What the pieces of a text are as tokens.
ghost use Rattle.std.specs.Prelude.{◌≡◌, ◌≤◌, ◌^◌, length, drop, Option};
ghost use Rattle.std.specs.Option.{option_map};
ghost use Rattle.std.specs.List.{list_all};
ghost use Rattle.std.specs.Char.{is_ascii_digit};
ghost use Rattle.sg_time.specs.Reading.{parts_of, said_of};
ghost use Rattle.vl_token.specs.Seen.{settings, meaning};
ghost use Rattle.vl_token.specs.Symbols.{symbol_of};
ghost use Rattle.vl_pieces.specs.Meanings.{name_meaning, symbol_meaning, is_whole, number_meaning, edge_value, pair_from, pair_meaning, cell_meaning, meaning_of};

use crate::constants::sized_kind;
use crate::pieces::Class;
use sg_logic::Value;
use sg_text::{Reserved, use_of};
use sg_time::Decimal;
use vl_token::{Mark, TokenKind, symbol_of};

fn name_kind(mark: Mark, bytes: &[u8]) -> TokenKind<'_>
    ensures { meaning result ≡ name_meaning (settings mark) bytes.now }
{
    match use_of(bytes) {
        None => TokenKind::Name(bytes),
        Some(Reserved::Module) => TokenKind::Module(mark),
        Some(Reserved::Keyword(word)) => TokenKind::Word(word),
        Some(Reserved::LeftOut) => TokenKind::LeftOut(bytes),
    }
}

fn symbol_kind(bytes: &[u8]) -> TokenKind<'_>
    ensures { meaning result ≡ symbol_meaning bytes.now (symbol_of bytes.now) }
{
    match symbol_of(bytes) {
        Some(symbol) => TokenKind::Symbol(symbol),
        None => TokenKind::Other(bytes),
    }
}

fn are_digits(bytes: &[u8]) -> bool
    ensures { result ≡ list_all is_ascii_digit bytes.now }
{
    bytes.iter().all(|b| b.is_ascii_digit())
}

// Whether the bytes are 1 to 18 digits and nothing else.
fn is_whole(bytes: &[u8]) -> bool
    ensures { result ≡ is_whole bytes.now }
{
    are_digits(bytes) && bytes.len() <= 18
}

fn number_kind(bytes: &[u8]) -> TokenKind<'_>
    requires { length bytes.now ≤ 2 ^ 28 }
    ensures { meaning result ≡ number_meaning bytes.now (said_of (parts_of bytes.now)) }
{
    match Decimal::read(bytes) {
        Ok(value) => TokenKind::Number {
            value,
            whole: is_whole(bytes),
        },
        Err(_) => TokenKind::Other(bytes),
    }
}

// The value that a byte of an edge list stands for: z is read as x.
fn edge_value(b: u8) -> Value
    ensures { result ≡ edge_value b }
{
    match b {
        b'0' => Value::Zero,
        b'1' => Value::One,
        _ => Value::X,
    }
}

fn pair_from(bytes: &[u8], from: Value, to: Value) -> TokenKind<'_>
    ensures { meaning result ≡ pair_from bytes.now from to }
{
    match (from, to) {
        (Value::Zero, Value::Zero) | (Value::One, Value::One) | (Value::X, Value::X) => {
            TokenKind::Other(bytes)
        }
        _ => TokenKind::Pair { from, to },
    }
}

fn pair_kind(bytes: &[u8]) -> TokenKind<'_>
    ensures { meaning result ≡ pair_meaning bytes.now }
{
    match bytes {
        [a, b] => pair_from(bytes, edge_value(*a), edge_value(*b)),
        _ => TokenKind::Other(bytes),
    }
}

fn cell_kind(bytes: &[u8]) -> TokenKind<'_>
    ensures { meaning result ≡ cell_meaning bytes.now }
{
    match bytes {
        [b] => TokenKind::Byte(*b),
        _ => TokenKind::Other(bytes),
    }
}

// Without its first byte.
pub fn behind_first(bytes: &[u8]) -> &[u8]
    ensures { result.now ≡ drop 1 bytes.now }
{
    match bytes {
        [_, rest @ ..] => rest,
        [] => bytes,
    }
}

// What a piece is as a token, if it is one.
pub fn kind_of(class: Class, bytes: &[u8], mark: Mark) -> Option<TokenKind<'_>>
    requires { length bytes.now ≤ 2 ^ 28 }
    ensures { option_map meaning result ≡ meaning_of class bytes.now (settings mark) }
{
    match class {
        Class::Gap | Class::Attribute => None,
        Class::Name => Some(name_kind(mark, bytes)),
        Class::Escaped => Some(TokenKind::Name(behind_first(bytes))),
        Class::System => Some(TokenKind::System(bytes)),
        Class::Number => Some(number_kind(bytes)),
        Class::Sized => Some(sized_kind(bytes)),
        Class::Symbol => Some(symbol_kind(bytes)),
        Class::Cell => Some(cell_kind(bytes)),
        Class::Pair => Some(pair_kind(bytes)),
        _ => Some(TokenKind::Other(bytes)),
    }
}
