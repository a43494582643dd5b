// How a text is split where a table, an edge list or the line of a macro stands.
ghost use Rattle.std.specs.Prelude.{◌≡◌, ◌<◌, ◌≤◌, ◌^◌, length, take, drop};
ghost use Rattle.vl_pieces.specs.Modes.{IsPiece, is_value_byte, is_endtable};
ghost use Rattle.vl_pieces.specs.Bytes.{first_of};
ghost use Rattle.vl_pieces.specs.PieceBridge.{piece_of, edge_piece, cell_piece, table_piece, line_piece, piece_in};

use crate::bytes::{First, first_of, is_word, line_len};
use crate::pieces::{Class, plain_piece, slash_piece};
use sg_text::is_name_byte;

/// How the text at hand is split.
#[derive(Clone, Copy, Debug, PartialEq, Eq)]
pub enum Mode {
    Plain,
    /// As elsewhere, behind the word `edge`.
    AfterEdge,
    /// As elsewhere, but for pairs of values.
    Edges,
    /// Byte by byte.
    Table,
    /// The same in an edge list, which goes on behind it.
    EdgesTable,
    /// As one line.
    Line,
}

fn is_value_byte(b: u8) -> bool
    ensures { result ≡ is_value_byte b }
{
    b == b'0' || b == b'1' || b == b'x' || b == b'X' || b == b'z' || b == b'Z'
}

fn edge_piece(text: &[u8]) -> (Class, usize)
    requires some { 0 < length text.now }
    requires few { length text.now < 2 ^ 63 }
    ensures class { result.0 ≡ (edge_piece text.now).0 }
    ensures size { result.1 ≡ (edge_piece text.now).1 }
{
    match text {
        [a, b, ..] if is_value_byte(*a) && is_value_byte(*b) => (Class::Pair, 2),
        _ => plain_piece(text),
    }
}

// Whether the bytes are the word endtable, and no name byte comes after them.
fn is_endtable(bytes: &[u8], after: &[u8]) -> bool
    ensures { result ≡ is_endtable bytes.now after.now }
{
    is_word(bytes, "endtable")
        && match after {
            [b, ..] => !is_name_byte(*b),
            [] => true,
        }
}

fn cell_piece(first: First, rest: &[u8]) -> (Class, usize)
    ensures class { result.0 ≡ (cell_piece first rest.now).0 }
    ensures size { result.1 ≡ (cell_piece first rest.now).1 }
{
    match first {
        First::Blank => (Class::Gap, 1),
        First::Bad => (Class::BadByte, 1),
        First::Slash => match slash_piece(rest) {
            (Class::Other, n) => (Class::Cell, n),
            piece => piece,
        },
        _ => (Class::Cell, 1),
    }
}

fn table_piece(text: &[u8]) -> (Class, usize)
    ensures class { result.0 ≡ (table_piece text.now).0 }
    ensures size { result.1 ≡ (table_piece text.now).1 }
{
    let [b, rest @ ..] = text else {
        return (Class::Other, 0);
    };
    let (front, after) = text.split_at(text.len().min(8));
    if is_endtable(front, after) {
        (Class::Name, 8)
    } else {
        cell_piece(first_of(*b), rest)
    }
}

fn line_piece(text: &[u8]) -> (Class, usize)
    ensures class { result.0 ≡ (line_piece text.now).0 }
    ensures size { result.1 ≡ (line_piece text.now).1 }
{
    match text {
        [] => (Class::Other, 0),
        [b'\n', ..] => (Class::Gap, 1),
        [_, rest @ ..] => (Class::Line, 1 + line_len(rest)),
    }
}

fn found_piece(mode: Mode, text: &[u8]) -> (Class, usize)
    requires some { 0 < length text.now }
    requires few { length text.now < 2 ^ 63 }
    ensures class { result.0 ≡ (piece_in mode text.now).0 }
    ensures size { result.1 ≡ (piece_in mode text.now).1 }
{
    match mode {
        Mode::Plain | Mode::AfterEdge => plain_piece(text),
        Mode::Edges => edge_piece(text),
        Mode::Table | Mode::EdgesTable => table_piece(text),
        Mode::Line => line_piece(text),
    }
}

// The first piece of a text: the longest front that has a form in this mode.
pub fn first_piece(mode: Mode, text: &[u8]) -> (Class, usize)
    requires some { 0 < length text.now }
    requires few { length text.now < 2 ^ 63 }
    ensures piece { IsPiece mode text.now result.1 result.0 }
    ensures some { 0 < result.1 }
    ensures within { result.1 ≤ length text.now }
{
    found_piece(mode, text)
}
