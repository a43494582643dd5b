// What the symbols of a row cover.
ghost use Rattle.std.specs.Prelude.{◌≡◌};
ghost use Rattle.udp_rows.specs.Symbols.{edge_covers, has_edge, is_letter, is_level, level_covers, letter_covers};

use crate::Cell;
use sg_logic::Value;

// Whether a byte is one of some symbols.
macro_rules! is_one_of {
    ($byte:expr; $($symbol:literal)+) => {
        $($byte == $symbol)||+
    };
}

/// Whether a byte is a level symbol.
pub(crate) fn is_level_symbol(symbol: u8) -> bool
    ensures { result ≡ is_level symbol }
{
    is_one_of!(symbol; b'0' b'1' b'x' b'X' b'?' b'b' b'B')
}

/// Whether a level symbol covers a value.
pub(crate) fn covers_level(symbol: u8, value: Value) -> bool
    ensures { result ≡ level_covers symbol value }
{
    match value {
        Value::Zero => is_one_of!(symbol; b'0' b'?' b'b' b'B'),
        Value::One => is_one_of!(symbol; b'1' b'?' b'b' b'B'),
        Value::X => is_one_of!(symbol; b'x' b'X' b'?'),
        Value::Z => false,
    }
}

/// Whether a byte is an edge symbol.
pub(crate) fn is_letter_symbol(symbol: u8) -> bool
    ensures { result ≡ is_letter symbol }
{
    is_one_of!(symbol; b'*' b'r' b'R' b'f' b'F' b'p' b'P' b'n' b'N')
}

/// Whether a cell has an edge symbol.
pub(crate) fn is_edge(cell: Cell) -> bool
    ensures { result ≡ has_edge cell }
{
    cell.second != 0 || is_letter_symbol(cell.first)
}

// Whether a letter, which stands for an edge, covers a change.
fn covers_by_letter(letter: u8, before: Value, after: Value) -> bool
    ensures { result ≡ letter_covers letter before after }
{
    match (before, after) {
        (Value::Zero, Value::One) => is_one_of!(letter; b'*' b'r' b'R' b'p' b'P'),
        (Value::One, Value::Zero) => is_one_of!(letter; b'*' b'f' b'F' b'n' b'N'),
        (Value::Zero, Value::X) | (Value::X, Value::One) => is_one_of!(letter; b'*' b'p' b'P'),
        (Value::One, Value::X) | (Value::X, Value::Zero) => is_one_of!(letter; b'*' b'n' b'N'),
        _ => false,
    }
}

/// Whether a cell with an edge symbol covers a change. None covers a change from or to z.
pub(crate) fn covers_edge(cell: Cell, before: Value, after: Value) -> bool
    ensures { result ≡ edge_covers cell before after }
{
    if cell.second == 0 {
        return covers_by_letter(cell.first, before, after);
    }
    before != after && covers_level(cell.first, before) && covers_level(cell.second, after)
}
