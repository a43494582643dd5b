// The constants that ports are connected to.
ghost use Rattle.std.specs.Prelude.{◌≡◌, ◌+◌, ◌^◌, ◌<◌, ◌++◌, [], All, IfOk, OnOk, length, map, option_map};
ghost use Rattle.std.specs.List.{cons_option};
ghost use Rattle.vl_tree.specs.Seen.{view_name, view_expression, view_connections, view_named_connection};
ghost use Rattle.vl_tree.specs.Tree.{Module, by_order, by_name};
ghost use Rattle.elab_model.specs.Connections.{port_values, with_port};
ghost use Rattle.elab_laws.specs.Handing.{all_bits};
ghost use Rattle.elab_ports.specs.Bound.{AreConnected, AreOf};
ghost use Rattle.elab_ports.specs.Constants.{constants_in, view_constant};
ghost use Rattle.elab_ports.specs.Placing.{code_constants, Places};

use crate::room::bits_of_port;
use elab_bits::Bit;
use elab_variables::Table;
use sg_logic::Value;
use sg_text::{NoMemory, Place};
use std::alloc::Global;
use vl_tree::{Connections, Expression, Instance, Name, NamedConnection};

/// A constant that is bound to a bit of a port.
#[derive(Clone, Copy, Debug, PartialEq)]
pub struct PortConstant {
    /// The place of the bit in the row of bits of the instance's module.
    pub bit: usize,
    pub place: Place,
    pub value: Value,
}

/// The constants in the connections of an instance, in text order. Takes memory in proportion to the connections.
pub fn port_constants(
    alloc: Global,
    parent: &Table,
    instance: &Instance,
    ports: &[Name],
    child: &Table,
) -> Result<Vec<PortConstant>, NoMemory>
    ensures constants { IfOk result (λ list. (m : Module) → AreOf m child.now (map view_name ports.now) → AreConnected parent.now m instance.now.place (view_connections instance.now.connections)
        → map (view_constant child.now) list.items ≡ constants_in parent.now (view_connections instance.now.connections) (map view_name ports.now)) }
    ensures row { IfOk result (λ list. All (λ c. c.bit < length (all_bits child.now)) list.items) }
{
    let mut list = Vec::new(alloc);
    let mut bits = Vec::new(alloc);
    add_all(
        parent,
        child,
        ports,
        &instance.connections,
        &mut bits,
        &mut list,
    )?;
    Ok(list)
}

fn add_all(
    parent: &Table,
    child: &Table,
    ports: &[Name],
    connections: &Connections,
    bits: &mut Vec<Bit>,
    list: &mut Vec<PortConstant>,
) -> Result<(), NoMemory>
    ensures { OnOk result (Places parent.now child.now (port_values (view_connections connections.now) (map view_name ports.now)) list.old.items list.new.items) }
{
    match connections {
        Connections::Ordered(values) => add_ordered(parent, child, ports, values, bits, list),
        Connections::Named(named) => add_named(parent, child, named, bits, list),
    }
}

fn add_ordered(
    parent: &Table,
    child: &Table,
    ports: &[Name],
    values: &[Option<Expression>],
    bits: &mut Vec<Bit>,
    list: &mut Vec<PortConstant>,
) -> Result<(), NoMemory>
    ensures { OnOk result (Places parent.now child.now (port_values (by_order (map (option_map view_expression) values.now)) (map view_name ports.now)) list.old.items list.new.items) }
{
    for (port, value) in ports.iter().zip(values) {
        add_value(parent, child, port.text, value, bits, list)?;
    }
    Ok(())
}

fn add_named(
    parent: &Table,
    child: &Table,
    connections: &[NamedConnection],
    bits: &mut Vec<Bit>,
    list: &mut Vec<PortConstant>,
) -> Result<(), NoMemory>
    ensures { OnOk result (Places parent.now child.now (port_values (by_name (map view_named_connection connections.now)) []) list.old.items list.new.items) }
{
    for connection in connections {
        add_value(
            parent,
            child,
            connection.port.text,
            &connection.value,
            bits,
            list,
        )?;
    }
    Ok(())
}

fn add_value(
    parent: &Table,
    child: &Table,
    port: &[u8],
    value: &Option<Expression>,
    bits: &mut Vec<Bit>,
    list: &mut Vec<PortConstant>,
) -> Result<(), NoMemory>
    ensures { OnOk result (Places parent.now child.now (cons_option (with_port port.now (option_map view_expression value.now)) []) list.old.items list.new.items) }
{
    if let Some(expression) = value {
        if let Some(start) = bits_of_port(parent, child, port, expression, bits)? {
            push_constants(start, bits, list)?;
        }
    }
    Ok(())
}

fn push_constants(start: usize, bits: &[Bit], list: &mut Vec<PortConstant>) -> Result<(), NoMemory>
    requires below { start + length bits.now < 2 ^ 64 }
    ensures { OnOk result (list.new.items ≡ list.old.items ++ code_constants start bits.now) }
{
    for (offset, bit) in bits.iter().enumerate() {
        if let Bit::Constant { place, value } = bit {
            list.push(PortConstant {
                bit: start + offset,
                place: *place,
                value: *value,
            })?;
        }
    }
    Ok(())
}
