// Readers of the rows of primitives' tables.
ghost use Rattle.std.specs.Prelude.{◌≡◌, map};
ghost use Rattle.grammar.specs.Reading.{Gives};
ghost use Rattle.grammar.specs.Rule.{stands};
ghost use Rattle.vl_token.specs.Seen.{lexeme};
ghost use Rattle.vl_tree.specs.Kinds.{kind_of, is_byte, byte_number, ByteKind, cell_byte, colon_byte, left_byte, right_byte, semicolon_byte, kind_of_byte};
ghost use Rattle.vl_tree.specs.Primitives as primitives;
ghost use Rattle.vl_tree.specs.Primitives.{cell_starts};
ghost use Rattle.vl_tree.specs.Rules as rules;
ghost use Rattle.vl_terms.specs.Bytes.{bytes_kind};

use crate::lists::{ListPart, many_behind};
use crate::tokens::{place_at, token_at};
use grammar::ReadFault;
use std::alloc::Global;
use udp_rows::{Cell, Cells, RawRow};
use vl_token::{Token, TokenKind};

/// What cuts a row, and a symbol of a cell.
#[derive(Clone, Copy)]
pub enum RowByte {
    Colon,
    Semicolon,
    Left,
    Right,
    Symbol,
}

/// What a byte of a table is.
fn row_byte(byte: u8) -> RowByte
    ensures { bytes_kind result ≡ kind_of_byte byte }
{
    match byte {
        b':' => RowByte::Colon,
        b';' => RowByte::Semicolon,
        b'(' => RowByte::Left,
        b')' => RowByte::Right,
        _ => RowByte::Symbol,
    }
}

impl RowByte {
    fn number(self) -> u8
        ensures { result ≡ byte_number (bytes_kind self) }
    {
        match self {
            RowByte::Colon => 0,
            RowByte::Semicolon => 1,
            RowByte::Left => 2,
            RowByte::Right => 3,
            RowByte::Symbol => 4,
        }
    }
}

/// Whether such a byte stands there.
fn is_row_byte(tokens: &[Token<'_>], at: usize, kind: RowByte) -> bool
    ensures { result ≡ stands kind_of (is_byte (bytes_kind kind)) (map lexeme tokens.now) at }
{
    match token_at(tokens, at) {
        Some(
            Token {
                kind: TokenKind::Byte(byte),
                ..
            },
        ) => kind.number() == row_byte(byte).number(),
        _ => false,
    }
}

/// The position behind such a byte.
fn byte(tokens: &[Token<'_>], at: usize, kind: RowByte) -> Result<usize, ReadFault>
    ensures { Gives (λ next. (tt, next)) result ((rules.byte (bytes_kind kind)).read (map lexeme tokens.now) at) }
{
    match token_at(tokens, at) {
        Some(
            Token {
                kind: TokenKind::Byte(byte),
                ..
            },
        ) if kind.number() == row_byte(byte).number() => Ok(at + 1),
        _ => Err(ReadFault::At(at)),
    }
}

/// A symbol of a cell.
#[tactic(auto, unfolding(vl_tree::specs::Primitives::symbol_parts))]
fn symbol(tokens: &[Token<'_>], at: usize) -> Result<(u8, usize), ReadFault>
    ensures { Gives (λ x. x) result (primitives.symbol_rule.read (map lexeme tokens.now) at) }
{
    match token_at(tokens, at) {
        Some(
            Token {
                kind: TokenKind::Byte(byte),
                ..
            },
        ) if row_byte(byte).number() == RowByte::Symbol.number() => Ok((byte, at + 1)),
        _ => Err(ReadFault::At(at)),
    }
}

/// A symbol, or two in parentheses.
#[tactic(auto, unfolding(vl_tree::specs::Primitives::cell_parts))]
fn cell(tokens: &[Token<'_>], at: usize) -> Result<(Cell, usize), ReadFault>
    ensures { Gives (λ x. x) result (primitives.cell.read (map lexeme tokens.now) at) }
{
    if is_row_byte(tokens, at, RowByte::Symbol) {
        let (first, next) = symbol(tokens, at)?;
        return Ok((Cell { first, second: 0 }, next));
    }
    let next = byte(tokens, at, RowByte::Left)?;
    let (first, next) = symbol(tokens, next)?;
    let (second, next) = symbol(tokens, next)?;
    let next = byte(tokens, next, RowByte::Right)?;
    Ok((Cell { first, second }, next))
}

/// Whether a cell begins there.
fn cell_stands(tokens: &[Token<'_>], at: usize) -> bool
    ensures { result ≡ stands kind_of cell_starts (map lexeme tokens.now) at }
{
    is_row_byte(tokens, at, RowByte::Symbol) || is_row_byte(tokens, at, RowByte::Left)
}

struct CellPart;

impl<'a> ListPart<'a> for CellPart {
    type Value = Cell;

    ghost use Rattle.udp_rows.specs.declared.cells.Cell.{Cell as TreeSeen};
    ghost use Rattle.vl_tree.specs.Primitives as primitives;

    ghost Tree = { TreeSeen };

    ghost rule = { primitives.cell };

    ghost view = { λ c. c };

    fn begins(tokens: &[Token<'a>], at: usize) -> bool {
        cell_stands(tokens, at)
    }

    fn read(_: Global, tokens: &[Token<'a>], at: usize) -> Result<(Cell, usize), ReadFault> {
        cell(tokens, at)
    }
}

/// `cell { cell }`
#[tactic(auto, using(vl_tree::proofs::Lists::one_cell), unfolding(vl_tree::specs::Primitives::cells_parts))]
fn cells(alloc: Global, tokens: &[Token<'_>], at: usize) -> Result<(Vec<Cell>, usize), ReadFault>
    ensures { Gives (λ x. (x.0.items, x.1)) result (primitives.cells.read (map lexeme tokens.now) at) }
{
    let (first, next) = cell(tokens, at)?;
    let parts = vec![in alloc; first]?;
    many_behind::<CellPart>(alloc, parts, tokens, next)
}

/// `cells ":" out ";" | cells ":" state ":" out ";"`
#[tactic(auto, unfolding(vl_tree::specs::Primitives::row_parts))]
fn row(alloc: Global, tokens: &[Token<'_>], at: usize) -> Result<(RawRow, usize), ReadFault>
    ensures { Gives (λ x. x) result (primitives.row.read (map lexeme tokens.now) at) }
{
    let (inputs, next) = cells(alloc, tokens, at)?;
    let inputs = Cells::new(inputs);
    let next = byte(tokens, next, RowByte::Colon)?;
    let (cell_behind, next) = cell(tokens, next)?;
    if is_row_byte(tokens, next, RowByte::Semicolon) {
        let place = place_at(tokens, at)?;
        let row = RawRow {
            inputs,
            state: None,
            out: cell_behind,
            place,
        };
        return Ok((row, next + 1));
    }
    let next = byte(tokens, next, RowByte::Colon)?;
    let (out, next) = cell(tokens, next)?;
    let next = byte(tokens, next, RowByte::Semicolon)?;
    let place = place_at(tokens, at)?;
    let row = RawRow {
        inputs,
        state: Some(cell_behind),
        out,
        place,
    };
    Ok((row, next))
}

/// A row of a table.
pub struct RowPart;

impl<'a> ListPart<'a> for RowPart {
    type Value = RawRow;

    ghost use Rattle.udp_rows.specs.declared.cells.RawRow.{RawRow as TreeSeen};
    ghost use Rattle.vl_tree.specs.Primitives as primitives;

    ghost Tree = { TreeSeen };

    ghost rule = { primitives.row };

    ghost view = { λ r. r };

    fn begins(tokens: &[Token<'a>], at: usize) -> bool {
        cell_stands(tokens, at)
    }

    fn read(alloc: Global, tokens: &[Token<'a>], at: usize) -> Result<(RawRow, usize), ReadFault> {
        row(alloc, tokens, at)
    }
}
