// Rows as they are written.
use crate::symbols::{covers_level, is_edge};
use sg_logic::Value;
use sg_text::{NoMemory, Place};
use std::alloc::Global;
use std::marker::Model;

/// A cell of a row: a symbol, or a pair of them in parentheses. The second is 0 where there is one symbol alone.
#[derive(Clone, Copy, Debug, PartialEq, Eq)]
pub struct Cell {
    pub first: u8,
    pub second: u8,
}

/// The cells of a row's inputs.
#[derive(Debug, Drop)]
pub struct Cells {
    cells: Vec<Cell>,
}

impl Model for Cells {
    ghost use Rattle.std.specs.Prelude.{List};
    ghost use Rattle.udp_rows.specs.declared.cells.Cell.{Cell};

    ghost Value = { List Cell };

    ghost view = { λ c. c.cells.items };
}

impl Cells {
    ghost use Rattle.std.specs.Prelude.{◌≡◌, IfOk};

    /// These cells. Takes no memory.
    pub fn new(cells: Vec<Cell>) -> Cells
        ensures { result ≡ cells.items }
    {
        Cells { cells }
    }

    /// A copy of these cells. Takes memory.
    pub fn copy(alloc: Global, cells: &[Cell]) -> Result<Cells, NoMemory>
        ensures { IfOk result (λ c. c ≡ cells.now) }
    {
        Ok(Cells {
            cells: Vec::from_slice(alloc, cells)?,
        })
    }

    pub fn as_slice(&self) -> &[Cell]
        ensures { result.now ≡ self.now }
    {
        &self.cells
    }

    /// The cells again, without taking memory.
    pub fn into_vec(self) -> Vec<Cell>
        ensures { result.items ≡ self }
    {
        self.cells
    }
}

/// A row of a table: a cell per input in port order, the cell of the state in a sequential primitive, that of the
/// output, and where the row stands.
#[derive(Debug, Drop)]
pub struct RawRow {
    pub inputs: Cells,
    pub state: Option<Cell>,
    pub out: Cell,
    pub place: Place,
}

impl RawRow {
    ghost use Rattle.std.specs.Prelude.{◌≡◌, IfOk};
    ghost use Rattle.udp_rows.specs.Meaning.{is_edge_row as has_edge_symbol, output as output_in, state_covers};

    /// A copy of the row. Takes memory.
    pub fn copy(&self, alloc: Global) -> Result<RawRow, NoMemory>
        ensures { IfOk result (λ row. row ≡ self.now) }
    {
        Ok(RawRow {
            inputs: Cells::copy(alloc, self.inputs.as_slice())?,
            state: self.state,
            out: self.out,
            place: self.place,
        })
    }

    /// Whether the row has an edge symbol.
    pub fn is_edge_row(&self) -> bool
        ensures { result ≡ has_edge_symbol self.now }
    {
        self.inputs.as_slice().iter().any(|cell| is_edge(*cell))
    }

    /// Whether the row covers a state. A row without a state covers each.
    pub fn covers_state(&self, state: Value) -> bool
        ensures { result ≡ state_covers self.now.state state }
    {
        match self.state {
            Some(cell) => covers_level(cell.first, state),
            None => true,
        }
    }

    /// The row's output in a state.
    pub fn output(&self, state: Value) -> Value
        ensures { result ≡ output_in self.now state }
    {
        match self.out.first {
            b'0' => Value::Zero,
            b'1' => Value::One,
            b'-' => state,
            _ => Value::X,
        }
    }
}
