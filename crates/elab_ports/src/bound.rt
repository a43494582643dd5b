// What the bits of an instance are bound to.
ghost use Rattle.std.specs.Prelude.{◌≡◌, ◌+◌, ◌≤◌, [], Some, All, IfOk, IfSome, OnOk, length, map, option_map};
ghost use Rattle.std.specs.List.{cons_option};
ghost use Rattle.vl_tree.specs.Seen.{view_name, view_expression, view_connections, view_named_connection};
ghost use Rattle.vl_tree.specs.Tree.{Module, by_order, by_name};
ghost use Rattle.elab_model.specs.Connections.{port_values, with_port};
ghost use Rattle.elab_laws.specs.Handing.{all_bits};
ghost use Rattle.elab_bits.specs.Seen.{view_bit, IsInRow};
ghost use Rattle.elab_ports.specs.Binding.{put, Binds};
ghost use Rattle.elab_ports.specs.Bound.{bound_in, AreConnected, AreOf};

use crate::room::bits_of_port;
use elab_bits::Bit;
use elab_variables::Table;
use sg_text::NoMemory;
use std::alloc::Global;
use vl_tree::{Connections, Expression, Instance, Name, NamedConnection};

/// What each bit of an instance is bound to in its parent, in the order of the row of bits of its module's table (IEEE 1364-2005, 12.3.5,
/// 12.3.6): a bit of the parent's row, a constant, or nothing. `ports` is the list of ports of its module. Takes memory in
/// proportion to the row and the widest connection.
pub fn bound_bits(
    alloc: Global,
    parent: &Table,
    instance: &Instance,
    ports: &[Name],
    child: &Table,
) -> Result<Vec<Option<Bit>>, NoMemory>
    ensures bound { IfOk result (λ list. (m : Module) → AreOf m child.now (map view_name ports.now) → AreConnected parent.now m instance.now.place (view_connections instance.now.connections)
        → map (option_map (view_bit parent.now)) list.items ≡ map (λ b. bound_in parent.now (view_connections instance.now.connections) (map view_name ports.now) b.0.name b.1) (all_bits child.now)) }
    ensures row { IfOk result (λ list. All (λ b. IfSome b (IsInRow parent.now)) list.items) }
{
    let mut row = vec![in alloc; None; child.bits()]?;
    let mut bits = Vec::new(alloc);
    bind_all(
        parent,
        child,
        ports,
        &instance.connections,
        &mut bits,
        &mut row,
    )?;
    Ok(row)
}

fn bind_all(
    parent: &Table,
    child: &Table,
    ports: &[Name],
    connections: &Connections,
    bits: &mut Vec<Bit>,
    row: &mut [Option<Bit>],
) -> Result<(), NoMemory>
    requires long { length row.old ≡ length (all_bits child.now) }
    ensures { OnOk result (Binds parent.now child.now (port_values (view_connections connections.now) (map view_name ports.now)) row.old row.new) }
{
    match connections {
        Connections::Ordered(values) => bind_ordered(parent, child, ports, values, bits, row),
        Connections::Named(list) => bind_named(parent, child, list, bits, row),
    }
}

fn bind_ordered(
    parent: &Table,
    child: &Table,
    ports: &[Name],
    values: &[Option<Expression>],
    bits: &mut Vec<Bit>,
    row: &mut [Option<Bit>],
) -> Result<(), NoMemory>
    requires long { length row.old ≡ length (all_bits child.now) }
    ensures { OnOk result (Binds parent.now child.now (port_values (by_order (map (option_map view_expression) values.now)) (map view_name ports.now)) row.old row.new) }
{
    for (port, value) in ports.iter().zip(values) {
        bind_value(parent, child, port.text, value, bits, row)?;
    }
    Ok(())
}

fn bind_named(
    parent: &Table,
    child: &Table,
    connections: &[NamedConnection],
    bits: &mut Vec<Bit>,
    row: &mut [Option<Bit>],
) -> Result<(), NoMemory>
    requires long { length row.old ≡ length (all_bits child.now) }
    ensures { OnOk result (Binds parent.now child.now (port_values (by_name (map view_named_connection connections.now)) []) row.old row.new) }
{
    for connection in connections {
        bind_value(
            parent,
            child,
            connection.port.text,
            &connection.value,
            bits,
            row,
        )?;
    }
    Ok(())
}

fn bind_value(
    parent: &Table,
    child: &Table,
    port: &[u8],
    value: &Option<Expression>,
    bits: &mut Vec<Bit>,
    row: &mut [Option<Bit>],
) -> Result<(), NoMemory>
    requires long { length row.old ≡ length (all_bits child.now) }
    ensures { OnOk result (Binds parent.now child.now (cons_option (with_port port.now (option_map view_expression value.now)) []) row.old row.new) }
{
    if let Some(expression) = value {
        if let Some(start) = bits_of_port(parent, child, port, expression, bits)? {
            put_bits(row, start, bits);
        }
    }
    Ok(())
}

fn put_bits(row: &mut [Option<Bit>], start: usize, bits: &[Bit])
    requires fits { start + length bits.now ≤ length row.old }
    ensures { row.new ≡ put start (map Some bits.now) row.old }
{
    for (offset, bit) in bits.iter().enumerate() {
        row[start + offset] = Some(*bit);
    }
}
