// What is refused in the connections of a module's instances.
ghost use Rattle.std.specs.Prelude.{◌≡◌, ◌≤◌, [], ◌++◌, IfOk, List, length, map, flat_map, option_map, zip};
ghost use Rattle.vl_tree.specs.Tree.{Module};
ghost use Rattle.vl_tree.specs.Seen.{view_expression, view_name, view_connections, view_named_connection, view_instance, view_delay};
ghost use Rattle.elab_model.specs.NameFaults.{declaration_faults};
ghost use Rattle.elab_model.specs.Names.{variables};
ghost use Rattle.elab_modules.specs.Ready.{IsPrepared};
ghost use Rattle.elab_modules.specs.Telling.{Tells};
ghost use Rattle.elab_modules.specs.Connecting.{connected_faults, ordered_faults, named_faults, connections_faults, instance_of_module_faults};

use crate::Prepared;
use crate::ports::{is_output, port_row, width_of};
use crate::terminals::check_value;
use elab_bits::Bit;
use elab_model::ElabKind;
use elab_names::check_once;
use elab_variables::Table;
use sg_text::{NoMemory, Place, Refused};
use std::alloc::Global;
use vl_tree::{Connections, Delay, Expression, Instance, Name, NamedConnection};

// Refuses what is connected to a port, and a name that is no port (UnknownName).
fn check_port(
    table: &Table,
    child: &Table,
    name: Name,
    value: &Option<Expression>,
    bits: &mut Vec<Bit>,
) -> Result<(), Refused<ElabKind>>
    ensures { (m : Module) → child.now ≡ variables m → declaration_faults m ≡ [] → Tells (connected_faults table.now m (view_name name.entry) (option_map view_expression value.now)) result }
{
    let Some(port) = port_row(child, name.text) else {
        return Err(Refused::Fault {
            kind: ElabKind::UnknownName,
            place: name.place,
        });
    };
    check_value(
        table,
        value,
        width_of(port.range),
        is_output(port.port),
        bits,
    )
}

fn check_ordered(
    table: &Table,
    child: &Table,
    ports: &[Name],
    values: &[Option<Expression>],
    bits: &mut Vec<Bit>,
) -> Result<(), Refused<ElabKind>>
    requires { length values.now ≤ length ports.now }
    ensures { (m : Module) → child.now ≡ variables m → declaration_faults m ≡ []
        → Tells (flat_map (λ x. connected_faults table.now m (view_name x.0) (option_map view_expression x.1)) (zip ports.now values.now)) result }
{
    for (place, value) in values.iter().enumerate() {
        check_port(table, child, ports[place], value, bits)?;
    }
    Ok(())
}

fn check_named(
    table: &Table,
    child: &Table,
    connections: &[NamedConnection],
    bits: &mut Vec<Bit>,
) -> Result<(), Refused<ElabKind>>
    ensures { (m : Module) → child.now ≡ variables m → declaration_faults m ≡ []
        → Tells (flat_map (λ c. connected_faults table.now m (view_name c.port) (option_map view_expression c.value)) connections.now) result }
{
    for connection in connections {
        check_port(table, child, connection.port, &connection.value, bits)?;
    }
    Ok(())
}

fn names_of<'a>(
    alloc: Global,
    connections: &[NamedConnection<'a>],
) -> Result<Vec<Name<'a>>, NoMemory>
    ensures { IfOk result (λ names. map view_name names.items ≡ map (λ c. view_name c.port) connections.now) }
{
    let mut names = Vec::new(alloc);
    for connection in connections {
        names.push(connection.port)?;
    }
    Ok(names)
}

fn check_all_ordered(
    table: &Table,
    child: &Prepared,
    place: Place,
    values: &[Option<Expression>],
    bits: &mut Vec<Bit>,
) -> Result<(), Refused<ElabKind>>
    ensures { (m : Module) → IsPrepared child.now m → Tells (ordered_faults table.now m place (map (option_map view_expression) values.now)) result }
{
    if values.len() > child.ports.len() {
        return Err(Refused::Fault {
            kind: ElabKind::BadTerminal,
            place,
        });
    }
    check_ordered(table, &child.table, &child.ports, values, bits)
}

fn check_all_named(
    table: &Table,
    child: &Prepared,
    connections: &[NamedConnection],
    bits: &mut Vec<Bit>,
) -> Result<(), Refused<ElabKind>>
    ensures { (m : Module) → IsPrepared child.now m → Tells (named_faults table.now m (map view_named_connection connections.now)) result }
{
    let alloc = *bits.allocator();
    let names = names_of(alloc, connections)?;
    check_once(alloc, &names)?;
    check_named(table, &child.table, connections, bits)
}

/// Refuses connections of a module's instance: more than ports (BadTerminal, at the instance), a port that is connected twice (DuplicateName) or isn't one (UnknownName),
/// and what is connected to each. Takes memory in proportion to the connections.
fn check_connections(
    table: &Table,
    child: &Prepared,
    place: Place,
    connections: &Connections,
    bits: &mut Vec<Bit>,
) -> Result<(), Refused<ElabKind>>
    ensures { (m : Module) → IsPrepared child.now m → Tells (connections_faults table.now m place (view_connections connections.now)) result }
{
    match connections {
        Connections::Ordered(values) => check_all_ordered(table, child, place, values, bits),
        Connections::Named(connections) => check_all_named(table, child, connections, bits),
    }
}

/// Refuses an instance of a module for want of a name (BadTerminal), for a delay (BadDelay), and for its connections.
pub fn check_module_instance(
    table: &Table,
    child: &Prepared,
    delay: &Option<Delay>,
    instance: &Instance,
    bits: &mut Vec<Bit>,
) -> Result<(), Refused<ElabKind>>
    ensures { (m : Module) → IsPrepared child.now m → Tells (instance_of_module_faults table.now m (option_map view_delay delay.now) (view_instance instance.now)) result }
{
    if instance.name.is_none() {
        return Err(Refused::Fault {
            kind: ElabKind::BadTerminal,
            place: instance.place,
        });
    }
    if let Some(delay) = delay {
        return Err(Refused::Fault {
            kind: ElabKind::BadDelay,
            place: delay.place,
        });
    }
    check_connections(table, child, instance.place, &instance.connections, bits)
}
