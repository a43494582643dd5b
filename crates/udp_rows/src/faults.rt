// What is refused in a table of rows: the parts of a row, each looked at in all rows.
ghost use Rattle.std.specs.Prelude.{◌≡◌, not};
ghost use Rattle.std.specs.List.{find, list_all};
ghost use Rattle.std.specs.Option.{option_copied};
ghost use Rattle.udp_rows.specs.Faults.{fits_edges as few_edges, fits_input as input_allowed, fits_length as right_length, fits_output as output_allowed, fits_state as state_allowed, fits_symbols as symbols_allowed, first_place as place_of_first, most_inputs as most};

use crate::symbols::{is_edge, is_letter_symbol, is_level_symbol};
use crate::{Cell, RawRow};
use sg_text::Place;

/// Why a table of rows is refused.
#[derive(Clone, Copy, Debug, PartialEq, Eq)]
pub enum UdpKind {
    /// More than ten inputs, or nine in a sequential primitive.
    TooManyInputs,
    /// A row has more than one edge symbol.
    TwoEdges,
    /// A row and an earlier one of its sort cover a common step and give it different outputs.
    Clash,
    /// A symbol stands where it may not.
    BadSymbol,
    /// Not one cell per input, or a missing or surplus state.
    RowLength,
}

/// How many inputs a primitive may have.
pub(crate) fn most_inputs(sequential: bool) -> u32
    ensures { result ≡ most sequential }
{
    if sequential { 9 } else { 10 }
}

/// The place of the first row, or else the first byte of the first file.
pub(crate) fn first_place(rows: &[RawRow]) -> Place
    ensures { result ≡ place_of_first rows.now }
{
    match rows {
        [first, ..] => first.place,
        [] => Place { file: 0, byte: 0 },
    }
}

fn fits_length(inputs: u32, sequential: bool, row: &RawRow) -> bool
    ensures { result ≡ right_length inputs sequential row.now }
{
    row.inputs.as_slice().len() == inputs as usize && row.state.is_some() == sequential
}

fn fits_input(sequential: bool, cell: Cell) -> bool
    ensures { result ≡ input_allowed sequential cell }
{
    if cell.second == 0 {
        is_level_symbol(cell.first) || (sequential && is_letter_symbol(cell.first))
    } else {
        sequential && is_level_symbol(cell.first) && is_level_symbol(cell.second)
    }
}

fn fits_state(state: Option<Cell>) -> bool
    ensures { result ≡ state_allowed state }
{
    match state {
        Some(cell) => cell.second == 0 && is_level_symbol(cell.first),
        None => true,
    }
}

fn fits_output(sequential: bool, cell: Cell) -> bool
    ensures { result ≡ output_allowed sequential cell }
{
    cell.second == 0
        && (cell.first == b'0'
            || cell.first == b'1'
            || cell.first == b'x'
            || cell.first == b'X'
            || (sequential && cell.first == b'-'))
}

fn fits_symbols(sequential: bool, row: &RawRow) -> bool
    ensures { result ≡ symbols_allowed sequential row.now }
{
    fit_inputs(sequential, row.inputs.as_slice())
        && fits_state(row.state)
        && fits_output(sequential, row.out)
}

fn fit_inputs(sequential: bool, cells: &[Cell]) -> bool
    ensures { result ≡ list_all (input_allowed sequential) cells.now }
{
    cells.iter().all(|cell| fits_input(sequential, *cell))
}

fn fits_edges(row: &RawRow) -> bool
    ensures { result ≡ few_edges row.now }
{
    let cells = row.inputs.as_slice();
    cells.iter().filter(|cell| is_edge(**cell)).count() <= 1
}

/// The first row without a cell for each input, or with a missing or surplus state.
pub(crate) fn wrong_length(inputs: u32, sequential: bool, rows: &[RawRow]) -> Option<&RawRow>
    ensures { option_copied result ≡ find (λ row. not (right_length inputs sequential row)) rows.now }
{
    rows.iter()
        .find(|row| !fits_length(inputs, sequential, row))
}

/// The first row with a symbol where it may not stand.
pub(crate) fn bad_symbol(sequential: bool, rows: &[RawRow]) -> Option<&RawRow>
    ensures { option_copied result ≡ find (λ row. not (symbols_allowed sequential row)) rows.now }
{
    rows.iter().find(|row| !fits_symbols(sequential, row))
}

/// The first row with more than one edge symbol.
pub(crate) fn two_edges(rows: &[RawRow]) -> Option<&RawRow>
    ensures { option_copied result ≡ find (λ row. not (few_edges row)) rows.now }
{
    rows.iter().find(|row| !fits_edges(row))
}
