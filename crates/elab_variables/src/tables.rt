// The variables of a module, found by their names.
ghost use Rattle.std.specs.Prelude.{IfOk, ◌≡◌, ◌<◌, []};
ghost use Rattle.vl_tree.specs.Seen.{view_module};
ghost use Rattle.elab_model.specs.NameFaults.{declaration_faults};
ghost use Rattle.elab_model.specs.Names.{variables};
ghost use Rattle.elab_variables.specs.Rows.{bit_count};
ghost use Rattle.elab_variables.specs.Tables.{starts_are, HasPlace};

use crate::naming::variable_names_of;
use crate::rows::rows_of;
use elab_declared::{net_declarations, port_declarations};
use indexmap::IndexSet;
use sg_circuit::{Port, Range};
use sg_text::NoMemory;
use std::alloc::Global;
use std::marker::Model;
use vl_tree::Module;

/// What a module says of a variable.
#[derive(Clone, Copy, Debug, PartialEq)]
pub struct Row {
    pub range: Option<Range>,
    pub reg: bool,
    pub port: Port,
    /// How many bits the variables before it have.
    pub start: usize,
}

/// The variables of a module: its ports, then declared nets, then implicit nets by first use (IEEE 1364-2005, 4.2, 4.5). It is seen
/// as the list of them. The bits of all, in order, left first, are its row of bits.
#[derive(Debug, Drop)]
pub struct Table<'a> {
    names: IndexSet<&'a [u8]>,
    rows: Vec<Row>,
    bits: usize,
}

impl<'a> Model for Table<'a> {
    ghost use Rattle.std.specs.Prelude.{List};
    ghost use Rattle.elab_model.specs.Names.{Variable};
    ghost use Rattle.elab_variables.specs.Tables.{variables_seen, IsTable};

    ghost Value = { List Variable };

    ghost view = { λ t. variables_seen t.names.keys t.rows.items };

    ghost invariant = { λ t. IsTable t.names.keys t.rows.items t.bits };
}

impl<'a> Table<'a> {
    ghost use Rattle.std.specs.Prelude.{◌≡◌, ◌<◌, ◌≤◌, Some, length, slice_get, take, IfOk, []};
    ghost use Rattle.sg_circuit.specs.Closed.{width_of};
    ghost use Rattle.vl_tree.specs.Seen.{view_module};
    ghost use Rattle.elab_model.specs.NameFaults.{declaration_faults};
    ghost use Rattle.elab_model.specs.Names.{variables};
    ghost use Rattle.elab_laws.specs.Handing.{all_bits};
    ghost use Rattle.elab_variables.specs.Seen.{variable_at, place_named};

    /// The table of a module whose declarations have no fault. Takes memory in proportion to the module.
    pub fn of(alloc: Global, definition: &Module<'a>) -> Result<Table<'a>, NoMemory>
        requires { declaration_faults (view_module definition.now) ≡ [] }
        ensures { IfOk result (λ t. t ≡ variables (view_module definition.now)) }
    {
        table_of(alloc, definition)
    }

    /// How many variables there are.
    pub fn len(&self) -> usize
        ensures { result ≡ length self.now }
    {
        self.rows.len()
    }

    /// The place of the variable of a name.
    pub fn find(&self, name: &[u8]) -> Option<usize>
        ensures { result ≡ place_named self.now name.now }
    {
        self.names.get_index_of(name)
    }

    /// The name of the variable at a place.
    pub fn name(&self, place: usize) -> &'a [u8]
        requires { place < length self.now }
        ensures { result.now ≡ (variable_at self.now place).name }
    {
        self.names[place]
    }

    /// The variable at a place.
    pub fn row(&self, place: usize) -> Row
        requires { place < length self.now }
        ensures range { result.range ≡ (variable_at self.now place).range }
        ensures reg { result.reg ≡ (variable_at self.now place).is_reg }
        ensures port { result.port ≡ (variable_at self.now place).port }
        ensures start { result.start ≡ length (all_bits (take place self.now)) }
        ensures wide { width_of result.range ≤ 65536 }
    {
        self.rows[place]
    }

    /// How many bits all variables have.
    pub fn bits(&self) -> usize
        ensures { result ≡ length (all_bits self.now) }
    {
        self.bits
    }

    /// The place of the variable that a bit of the row is one of, and its position in it, from the left.
    pub fn bit(&self, place: usize) -> (usize, usize)
        requires { place < length (all_bits self.now) }
        ensures variable { result.0 < length self.now }
        ensures position { result.1 < width_of (variable_at self.now result.0).range }
        ensures bit { slice_get (all_bits self.now) place ≡ Some (variable_at self.now result.0, result.1) }
    {
        let variable = row_with(&self.rows, place);
        (variable, place - self.rows[variable].start)
    }
}

// The last of the rows that start there or before.
fn row_with(rows: &[Row], place: usize) -> usize
    requires starts { starts_are 0 rows.now }
    requires below { place < bit_count rows.now }
    ensures { HasPlace rows.now place result }
{
    rows.partition_point(|row| row.start <= place) - 1
}

fn table_of<'a>(alloc: Global, definition: &Module<'a>) -> Result<Table<'a>, NoMemory>
    requires { declaration_faults (view_module definition.now) ≡ [] }
    ensures { IfOk result (λ t. t ≡ variables (view_module definition.now)) }
{
    let ports = port_declarations(alloc, definition)?;
    let nets = net_declarations(alloc, definition)?;
    let names = variable_names_of(alloc, definition, &nets)?;
    let (rows, bits) = rows_of(alloc, &names, &ports, &nets)?;
    Ok(Table { names, rows, bits })
}
