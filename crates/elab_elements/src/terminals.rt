// The bits of the terminals of gates and primitives, of which outputs stand first.
ghost use Rattle.std.specs.Prelude.{◌≡◌, ◌-◌, ◌+◌, ◌++◌, ◌∷◌, [], All, IfOk, OnOk, length, map, filter_map, option_map};
ghost use Rattle.vl_tree.specs.Seen.{view_connections, view_expression, view_named_connection};
ghost use Rattle.elab_bits.specs.Seen.{view_bit, IsInRow};
ghost use Rattle.elab_model.specs.Bits as def_bits;
ghost use Rattle.elab_model.specs.Elements as def_elements;
ghost use Rattle.elab_model.specs.Members.{connection_values};
ghost use Rattle.elab_elements.specs.Terminals.{AddsTerminals, AreBitsInRow};

use elab_bits::{Bit, add_bits};
use elab_variables::Table;
use sg_text::NoMemory;
use vl_tree::{Connections, Expression, NamedConnection};

/// Room for the bits of a member's terminals, outputs left and inputs right, or for those of the sides of an assignment; it is used again from member to member.
#[derive(Debug, Drop)]
pub struct Terminals {
    pub left: Vec<Bit>,
    pub right: Vec<Bit>,
}

// Adds the bit of an output; one of another width than one has none.
fn add_output(table: &Table, expression: &Expression, bits: &mut Vec<Bit>) -> Result<(), NoMemory>
    ensures bits { OnOk result (map (view_bit table.now) bits.new.items ≡ map (view_bit table.now) bits.old.items ++ def_elements.only_bit (def_bits.bits table.now (view_expression expression.now))) }
    ensures row { All (IsInRow table.now) bits.old.items → All (IsInRow table.now) bits.new.items }
{
    let before = bits.len();
    add_bits(table, expression, bits)?;
    if bits.len() == before + 1 {
        return Ok(());
    }
    bits.truncate(before);
    Ok(())
}

// Adds the bits of a terminal, where so many outputs are still to come; answers how many come behind it.
fn add_terminal(
    table: &Table,
    expression: &Expression,
    outputs: usize,
    room: &mut Terminals,
) -> Result<usize, NoMemory>
    ensures count { IfOk result (λ n. n ≡ outputs - 1) }
    ensures bits { OnOk result (AddsTerminals table.now outputs (view_expression expression.now ∷ []) room.old room.new) }
    ensures row { AreBitsInRow table.now room.old → AreBitsInRow table.now room.new }
{
    if outputs == 0 {
        add_bits(table, expression, &mut room.right)?;
        return Ok(0);
    }
    add_output(table, expression, &mut room.left)?;
    Ok(outputs - 1)
}

/// Adds the bits of terminals, of which the first `outputs` are outputs.
pub fn add_terminals(
    table: &Table,
    terminals: &[Expression],
    outputs: usize,
    room: &mut Terminals,
) -> Result<(), NoMemory>
    ensures bits { OnOk result (AddsTerminals table.now outputs (map view_expression terminals.now) room.old room.new) }
    ensures row { AreBitsInRow table.now room.old → AreBitsInRow table.now room.new }
{
    let mut rest = outputs;
    for terminal in terminals {
        rest = add_terminal(table, terminal, rest, room)?;
    }
    Ok(())
}

// The same of an expression, if there is one.
fn add_present(
    table: &Table,
    value: &Option<Expression>,
    outputs: usize,
    room: &mut Terminals,
) -> Result<usize, NoMemory>
    ensures count { IfOk result (λ n. n ≡ outputs - length (filter_map (λ e. e) (option_map view_expression value.now ∷ []))) }
    ensures bits { OnOk result (AddsTerminals table.now outputs (filter_map (λ e. e) (option_map view_expression value.now ∷ [])) room.old room.new) }
    ensures row { AreBitsInRow table.now room.old → AreBitsInRow table.now room.new }
{
    match value {
        None => Ok(outputs),
        Some(expression) => add_terminal(table, expression, outputs, room),
    }
}

fn add_ordered(
    table: &Table,
    values: &[Option<Expression>],
    outputs: usize,
    room: &mut Terminals,
) -> Result<(), NoMemory>
    ensures bits { OnOk result (AddsTerminals table.now outputs (filter_map (λ e. e) (map (option_map view_expression) values.now)) room.old room.new) }
    ensures row { AreBitsInRow table.now room.old → AreBitsInRow table.now room.new }
{
    let mut rest = outputs;
    for value in values {
        rest = add_present(table, value, rest, room)?;
    }
    Ok(())
}

fn add_named(
    table: &Table,
    connections: &[NamedConnection],
    outputs: usize,
    room: &mut Terminals,
) -> Result<(), NoMemory>
    ensures bits { OnOk result (AddsTerminals table.now outputs (filter_map (λ c. c.value) (map view_named_connection connections.now)) room.old room.new) }
    ensures row { AreBitsInRow table.now room.old → AreBitsInRow table.now room.new }
{
    let mut rest = outputs;
    for connection in connections {
        rest = add_present(table, &connection.value, rest, room)?;
    }
    Ok(())
}

/// Adds the bits of what is connected, of which the first `outputs` are outputs.
pub fn add_connected(
    table: &Table,
    connections: &Connections,
    outputs: usize,
    room: &mut Terminals,
) -> Result<(), NoMemory>
    ensures bits { OnOk result (AddsTerminals table.now outputs (connection_values (view_connections connections.now)) room.old room.new) }
    ensures row { AreBitsInRow table.now room.old → AreBitsInRow table.now room.new }
{
    match connections {
        Connections::Ordered(values) => add_ordered(table, values, outputs, room),
        Connections::Named(list) => add_named(table, list, outputs, room),
    }
}
