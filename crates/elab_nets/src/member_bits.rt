// The bits of the terminals of gates and primitives.
ghost use Rattle.std.specs.Option.{option_to_list};
ghost use Rattle.std.specs.Prelude.{◌≡◌, ◌++◌, ◌∷◌, [], All, OnOk, map, option_map, filter_map};
ghost use Rattle.vl_tree.specs.Seen.{view_expression, view_connections, view_named_connection};
ghost use Rattle.elab_model.specs.Bits as def;
ghost use Rattle.elab_model.specs.Elements.{only_bit};
ghost use Rattle.elab_model.specs.Members.{connection_values};
ghost use Rattle.elab_bits.specs.Seen.{view_bit, IsInRow};
ghost use Rattle.elab_nets.specs.TerminalBits.{AddsTerminals, HasBits};

use elab_bits::{Bit, add_bits};
use elab_variables::Table;
use sg_text::NoMemory;
use std::alloc::Global;
use vl_tree::{Connections, Expression, NamedConnection};

/// Room for the bits of the terminals of a gate or a primitive, which is used again from member to member.
#[derive(Debug, Drop)]
pub struct TerminalBits {
    /// How many of the terminals to come are outputs.
    pub outputs_to_come: usize,
    /// Those of outputs; an output of another width than one has none.
    pub outputs: Vec<Bit>,
    /// Those of inputs.
    pub inputs: Vec<Bit>,
}

impl TerminalBits {
    /// Room without bits.
    pub fn new(alloc: Global) -> TerminalBits
        ensures outputs { result.outputs.items ≡ [] }
        ensures inputs { result.inputs.items ≡ [] }
    {
        TerminalBits {
            outputs_to_come: 0,
            outputs: Vec::new(alloc),
            inputs: Vec::new(alloc),
        }
    }
}

// Takes all bits out, and awaits so many outputs.
fn await_outputs(outputs: usize, room: &mut TerminalBits)
    ensures awaited { room.new.outputs_to_come ≡ outputs }
    ensures outputs { room.new.outputs.items ≡ [] }
    ensures inputs { room.new.inputs.items ≡ [] }
{
    room.outputs_to_come = outputs;
    room.outputs.clear();
    room.inputs.clear();
}

// Adds the bit of an output; one of another width than one has none.
fn add_output(table: &Table, output: &Expression, bits: &mut Vec<Bit>) -> Result<(), NoMemory>
    ensures bits { OnOk result (map (view_bit table.now) bits.new.items ≡ map (view_bit table.now) bits.old.items ++ only_bit (def.bits table.now (view_expression output.now))) }
    ensures row { All (IsInRow table.now) bits.old.items → All (IsInRow table.now) bits.new.items }
{
    let before = bits.len();
    add_bits(table, output, bits)?;
    if bits.len() != before + 1 {
        bits.truncate(before);
    }
    Ok(())
}

// Adds the bits of a terminal, of an output while outputs are to come.
fn add_terminal(
    table: &Table,
    terminal: &Expression,
    room: &mut TerminalBits,
) -> Result<(), NoMemory>
    ensures bits { OnOk result (AddsTerminals table.now (view_expression terminal.now ∷ []) room.old room.new) }
    ensures row { All (IsInRow table.now) room.old.outputs.items → All (IsInRow table.now) room.new.outputs.items }
{
    if room.outputs_to_come == 0 {
        return add_bits(table, terminal, &mut room.inputs);
    }
    room.outputs_to_come -= 1;
    add_output(table, terminal, &mut room.outputs)
}

fn add_all(table: &Table, terminals: &[Expression], room: &mut TerminalBits) -> Result<(), NoMemory>
    ensures bits { OnOk result (AddsTerminals table.now (map view_expression terminals.now) room.old room.new) }
    ensures row { All (IsInRow table.now) room.old.outputs.items → All (IsInRow table.now) room.new.outputs.items }
{
    for terminal in terminals {
        add_terminal(table, terminal, room)?;
    }
    Ok(())
}

fn add_value(
    table: &Table,
    value: &Option<Expression>,
    room: &mut TerminalBits,
) -> Result<(), NoMemory>
    ensures bits { OnOk result (AddsTerminals table.now (option_to_list (option_map view_expression value.now)) room.old room.new) }
    ensures row { All (IsInRow table.now) room.old.outputs.items → All (IsInRow table.now) room.new.outputs.items }
{
    match value {
        Some(terminal) => add_terminal(table, terminal, room),
        None => Ok(()),
    }
}

fn add_ordered(
    table: &Table,
    values: &[Option<Expression>],
    room: &mut TerminalBits,
) -> Result<(), NoMemory>
    ensures bits { OnOk result (AddsTerminals table.now (filter_map (λ e. e) (map (option_map view_expression) values.now)) room.old room.new) }
    ensures row { All (IsInRow table.now) room.old.outputs.items → All (IsInRow table.now) room.new.outputs.items }
{
    for value in values {
        add_value(table, value, room)?;
    }
    Ok(())
}

fn add_named(
    table: &Table,
    connections: &[NamedConnection],
    room: &mut TerminalBits,
) -> Result<(), NoMemory>
    ensures bits { OnOk result (AddsTerminals table.now (filter_map (λ c. c.value) (map view_named_connection connections.now)) room.old room.new) }
    ensures row { All (IsInRow table.now) room.old.outputs.items → All (IsInRow table.now) room.new.outputs.items }
{
    for connection in connections {
        add_value(table, &connection.value, room)?;
    }
    Ok(())
}

fn add_connected(
    table: &Table,
    connections: &Connections,
    room: &mut TerminalBits,
) -> Result<(), NoMemory>
    ensures bits { OnOk result (AddsTerminals table.now (connection_values (view_connections connections.now)) room.old room.new) }
    ensures row { All (IsInRow table.now) room.old.outputs.items → All (IsInRow table.now) room.new.outputs.items }
{
    match connections {
        Connections::Ordered(values) => add_ordered(table, values, room),
        Connections::Named(named) => add_named(table, named, room),
    }
}

/// The bits of terminals, of which so many are outputs.
pub fn terminal_bits(
    table: &Table,
    outputs: usize,
    terminals: &[Expression],
    room: &mut TerminalBits,
) -> Result<(), NoMemory>
    ensures bits { OnOk result (HasBits table.now outputs (map view_expression terminals.now) room.new) }
    ensures row { All (IsInRow table.now) room.new.outputs.items }
{
    await_outputs(outputs, room);
    add_all(table, terminals, room)
}

/// The bits of what is connected to an instance, of which so many are outputs, in text order.
pub fn connection_bits(
    table: &Table,
    outputs: usize,
    connections: &Connections,
    room: &mut TerminalBits,
) -> Result<(), NoMemory>
    ensures bits { OnOk result (HasBits table.now outputs (connection_values (view_connections connections.now)) room.new) }
    ensures row { All (IsInRow table.now) room.new.outputs.items }
{
    await_outputs(outputs, room);
    add_connected(table, connections, room)
}
