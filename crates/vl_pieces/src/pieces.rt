// The pieces that a text is split into.
ghost use Rattle.std.specs.Prelude.{◌≡◌, ◌<◌, ◌≤◌, ◌+◌, ◌^◌, ◌∷◌, length, Option, Some, None, IsTrue};
ghost use Rattle.vl_pieces.specs.Bytes.{first_of};
ghost use Rattle.vl_pieces.specs.NumberBridge.{sized_len};
ghost use Rattle.vl_pieces.specs.PieceBridge.{piece_of, piece_from, digit_piece, point_piece, apostrophe_piece, mark_piece, slash_piece, paren_piece, quote_piece, tick_piece, symbol_len};

use crate::bytes::{
    First, end_of, first_of, graphic_len, is_symbol, line_len, name_len, quote_end,
};
use crate::numbers::{number_len, sized_len};
use sg_text::is_name_start;

/// What a piece of a text is.
#[derive(Clone, Copy, Debug, PartialEq, Eq)]
pub enum Class {
    /// A blank or a comment.
    Gap,
    Attribute,
    Name,
    Escaped,
    System,
    Number,
    Sized,
    Symbol,
    Quoted,
    /// A backquote with a name.
    Use,
    /// What no rule takes.
    Other,
    BadByte,
    UnendedComment,
    UnendedText,
    /// A byte of a table.
    Cell,
    /// Two values of an edge list.
    Pair,
    /// The line behind `define`.
    Line,
}

// The comment that a slash begins, or the slash alone.
pub fn slash_piece(rest: &[u8]) -> (Class, usize)
    ensures class { result.0 ≡ (slash_piece rest.now).0 }
    ensures size { result.1 ≡ (slash_piece rest.now).1 }
    ensures within { result.1 ≤ length rest.now + 1 }
{
    match rest {
        [b'/', comment @ ..] => (Class::Gap, 2 + line_len(comment)),
        [b'*', comment @ ..] => match end_of(b'*', b'/', comment) {
            Some(n) => (Class::Gap, 2 + n),
            None => (Class::UnendedComment, 2 + comment.len()),
        },
        _ => (Class::Other, 1),
    }
}

// The attribute that a parenthesis begins, or the parenthesis alone.
fn paren_piece(rest: &[u8]) -> (Class, usize)
    ensures class { result.0 ≡ (paren_piece rest.now).0 }
    ensures size { result.1 ≡ (paren_piece rest.now).1 }
    ensures within { result.1 ≤ length rest.now + 1 }
{
    match rest {
        [b'*', b')', ..] => (Class::Symbol, 1),
        [b'*', attribute @ ..] => match end_of(b'*', b')', attribute) {
            Some(n) => (Class::Attribute, 2 + n),
            None => (Class::UnendedComment, 2 + attribute.len()),
        },
        _ => (Class::Symbol, 1),
    }
}

// The text in quotes.
fn quote_piece(rest: &[u8]) -> (Class, usize)
    ensures class { result.0 ≡ (quote_piece rest.now).0 }
    ensures size { result.1 ≡ (quote_piece rest.now).1 }
    ensures within { result.1 ≤ length rest.now + 1 }
{
    match quote_end(rest) {
        Some(n) => (Class::Quoted, 1 + n),
        None => (Class::UnendedText, 1 + rest.len()),
    }
}

// The name behind a backquote, or the backquote alone.
fn tick_piece(rest: &[u8]) -> (Class, usize)
    ensures class { result.0 ≡ (tick_piece rest.now).0 }
    ensures size { result.1 ≡ (tick_piece rest.now).1 }
    ensures within { result.1 ≤ length rest.now + 1 }
{
    match rest {
        [b, tail @ ..] if is_name_start(*b) => (Class::Use, 2 + name_len(tail)),
        _ => (Class::Other, 1),
    }
}

// The longest symbol at the front, 0 where there is none.
fn symbol_len(text: &[u8]) -> usize
    ensures size { result ≡ symbol_len text.now }
    ensures within { result ≤ length text.now }
{
    if text.len() >= 3 && is_symbol(&text[..3]) {
        3
    } else if text.len() >= 2 && is_symbol(&text[..2]) {
        2
    } else if text.len() >= 1 && is_symbol(&text[..1]) {
        1
    } else {
        0
    }
}

fn mark_piece(size: usize) -> (Class, usize)
    ensures class { result.0 ≡ (mark_piece size).0 }
    ensures size { result.1 ≡ (mark_piece size).1 }
{
    if size == 0 {
        (Class::Other, 1)
    } else {
        (Class::Symbol, size)
    }
}

fn point_piece(size: usize) -> (Class, usize)
    ensures class { result.0 ≡ (point_piece size).0 }
    ensures size { result.1 ≡ (point_piece size).1 }
{
    if size == 0 {
        (Class::Symbol, 1)
    } else {
        (Class::Number, size)
    }
}

fn apostrophe_piece(size: usize) -> (Class, usize)
    ensures class { result.0 ≡ (apostrophe_piece size).0 }
    ensures size { result.1 ≡ (apostrophe_piece size).1 }
{
    if size == 0 {
        (Class::Other, 1)
    } else {
        (Class::Sized, size)
    }
}

// The longer of a number and a sized constant.
fn digit_piece(number: usize, sized: usize) -> (Class, usize)
    ensures class { result.0 ≡ (digit_piece number sized).0 }
    ensures size { result.1 ≡ (digit_piece number sized).1 }
{
    if number < sized {
        (Class::Sized, sized)
    } else {
        (Class::Number, number)
    }
}

// The first piece of a text that begins with neither a digit nor a point.
fn other_piece(b: u8, rest: &[u8], text: &[u8]) -> (Class, usize)
    requires is { text.now ≡ b ∷ rest.now }
    requires few { length text.now < 2 ^ 63 }
    ensures class { result.0 ≡ (piece_from (first_of b) b rest.now).0 }
    ensures size { result.1 ≡ (piece_from (first_of b) b rest.now).1 }
{
    match first_of(b) {
        First::Blank => (Class::Gap, 1),
        First::Letter => (Class::Name, 1 + name_len(rest)),
        First::Backslash => match graphic_len(rest) {
            0 => (Class::Other, 1),
            n => (Class::Escaped, 1 + n),
        },
        First::Dollar => match name_len(rest) {
            0 => (Class::Other, 1),
            n => (Class::System, 1 + n),
        },
        First::Quote => quote_piece(rest),
        First::Tick => tick_piece(rest),
        First::Apostrophe => apostrophe_piece(sized_len(text)),
        First::Slash => slash_piece(rest),
        First::Paren => paren_piece(rest),
        First::Mark => mark_piece(symbol_len(text)),
        First::Bad => (Class::BadByte, 1),
    }
}

// The first piece of a text where no table and no edge list stands.
pub fn plain_piece(text: &[u8]) -> (Class, usize)
    requires some { 0 < length text.now }
    requires few { length text.now < 2 ^ 63 }
    ensures class { result.0 ≡ (piece_of text.now).0 }
    ensures size { result.1 ≡ (piece_of text.now).1 }
{
    let [b, rest @ ..] = text else {
        return (Class::Other, 0);
    };
    if b.is_ascii_digit() {
        return digit_piece(number_len(text), sized_len(text));
    }
    if *b == b'.' {
        return point_piece(number_len(text));
    }
    other_piece(*b, rest, text)
}
