// What is refused in instances of primitives.
ghost use Rattle.std.specs.Prelude.{◌≡◌, false, flat_map, option_map, map};
ghost use Rattle.std.specs.List.{list_any};
ghost use Rattle.elab_model.specs.TerminalFaults.{is_missing};
ghost use Rattle.vl_tree.specs.Seen.{view_expression, view_connections, view_instance};
ghost use Rattle.elab_modules.specs.Connecting as told;
ghost use Rattle.elab_modules.specs.Telling.{Tells, joined_value_faults};
ghost use Rattle.elab_modules.specs.Connecting.{given_faults, terminal_list_faults, primitive_terminal_faults};

use crate::terminals::check_value;
use elab_bits::Bit;
use elab_model::ElabKind;
use elab_variables::Table;
use sg_text::{Place, Refused};
use vl_tree::{Connections, Expression, Instance};

fn is_one_missing(values: &[Option<Expression>]) -> bool
    ensures { result ≡ list_any is_missing (map (option_map view_expression) values.now) }
{
    for value in values {
        if value.is_none() {
            return true;
        }
    }
    false
}

// No terminal is missing, and there are so many.
fn are_given(values: &[Option<Expression>], count: usize) -> bool
    ensures { result ≡ told.are_given count (map (option_map view_expression) values.now) }
{
    if is_one_missing(values) {
        return false;
    }
    values.len() == count
}

// Inputs of one bit each.
fn check_inputs(
    table: &Table,
    values: &[Option<Expression>],
    bits: &mut Vec<Bit>,
) -> Result<(), Refused<ElabKind>>
    ensures { Tells (flat_map (λ v. joined_value_faults table.now 1 false (option_map view_expression v)) values.now) result }
{
    for value in values {
        check_value(table, value, 1, false, bits)?;
    }
    Ok(())
}

fn check_terminals(
    table: &Table,
    values: &[Option<Expression>],
    bits: &mut Vec<Bit>,
) -> Result<(), Refused<ElabKind>>
    ensures { Tells (given_faults table.now (map (option_map view_expression) values.now)) result }
{
    match values {
        [output, inputs @ ..] => {
            check_value(table, output, 1, true, bits)?;
            check_inputs(table, inputs, bits)
        }
        [] => Ok(()),
    }
}

fn check_ordered(
    table: &Table,
    ports: usize,
    place: Place,
    values: &[Option<Expression>],
    bits: &mut Vec<Bit>,
) -> Result<(), Refused<ElabKind>>
    ensures { Tells (terminal_list_faults table.now ports place (map (option_map view_expression) values.now)) result }
{
    if !are_given(values, ports) {
        return Err(Refused::Fault {
            kind: ElabKind::BadTerminal,
            place,
        });
    }
    check_terminals(table, values, bits)
}

/// Refuses an instance of a primitive of so many ports for terminals that aren't one for each port, by order (BadTerminal, at the instance), and for what is wrong with a terminal.
pub fn check_primitive_instance(
    table: &Table,
    ports: usize,
    instance: &Instance,
    bits: &mut Vec<Bit>,
) -> Result<(), Refused<ElabKind>>
    ensures { Tells (primitive_terminal_faults table.now ports (view_instance instance.now)) result }
{
    match &instance.connections {
        Connections::Ordered(values) => check_ordered(table, ports, instance.place, values, bits),
        Connections::Named(_) => Err(Refused::Fault {
            kind: ElabKind::BadTerminal,
            place: instance.place,
        }),
    }
}
