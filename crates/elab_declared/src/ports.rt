// The ports of a module.
ghost use Rattle.std.specs.Prelude.{◌≡◌, ◌++◌, ◌∷◌, Some, OnOk, IfOk, map};
ghost use Rattle.std.specs.Option.{option_map};
ghost use Rattle.vl_tree.specs.Seen.{view_name, view_head, view_head_port, view_item, view_module, view_port_declaration};
ghost use Rattle.elab_model.specs.Ports as def;
ghost use Rattle.elab_declared.specs.Words.{one_after};

use sg_text::NoMemory;
use std::alloc::Global;
use vl_tree::{Head, HeadPort, Item, Module, Name, PortDeclaration};

/// The names in a module's list of ports, in order (IEEE 1364-2005, 12.3.2). Takes memory.
pub fn port_list<'a>(alloc: Global, definition: &Module<'a>) -> Result<Vec<Name<'a>>, NoMemory>
    ensures { IfOk result (λ names. map view_name names.items ≡ def.port_list (view_module definition.now)) }
{
    match &definition.head {
        Some(list) => names_of_list(alloc, list),
        None => Ok(Vec::new(alloc)),
    }
}

fn names_of_list<'a>(alloc: Global, list: &Option<Head<'a>>) -> Result<Vec<Name<'a>>, NoMemory>
    ensures { IfOk result (λ names. map view_name names.items ≡ def.names_of_head (Some (option_map view_head list.now))) }
{
    match list {
        Some(head) => names_of_head(alloc, head),
        None => Ok(Vec::new(alloc)),
    }
}

fn names_of_head<'a>(alloc: Global, head: &Head<'a>) -> Result<Vec<Name<'a>>, NoMemory>
    ensures { IfOk result (λ names. map view_name names.items ≡ def.names_of_head (Some (Some (view_head head.now)))) }
{
    match head {
        Head::Names(names) => Ok(Vec::from_slice(alloc, names)?),
        Head::Declarations { first, rest } => names_of_ports(alloc, first.name, rest),
    }
}

fn names_of_ports<'a>(
    alloc: Global,
    first: Name<'a>,
    rest: &[HeadPort<'a>],
) -> Result<Vec<Name<'a>>, NoMemory>
    ensures { IfOk result (λ names. map view_name names.items ≡ view_name first.entry ∷ map def.name_of_port (map view_head_port rest.now)) }
{
    let mut names = Vec::new(alloc);
    names.push(first)?;
    for port in rest {
        names.push(name_of(port))?;
    }
    Ok(names)
}

fn name_of<'a>(port: &HeadPort<'a>) -> Name<'a>
    ensures { view_name result ≡ def.name_of_port (view_head_port port.now) }
{
    match port {
        HeadPort::Declaration(declaration) => declaration.name,
        HeadPort::Name(name) => *name,
    }
}

/// The ports that a module declares, in its list of ports and by its items (IEEE 1364-2005, 12.3.3, 12.3.4). Takes memory.
pub fn port_declarations<'a>(
    alloc: Global,
    definition: &Module<'a>,
) -> Result<Vec<PortDeclaration<'a>>, NoMemory>
    ensures { IfOk result (λ ports. map view_port_declaration ports.items ≡ def.port_declarations (view_module definition.now)) }
{
    let mut ports = ports_of_head(alloc, definition)?;
    for item in &definition.items {
        add_item(item, &mut ports)?;
    }
    Ok(ports)
}

/// The ports that a module declares in its list of ports (IEEE 1364-2005, 12.3.4). Takes memory.
pub fn ports_of_head<'a>(
    alloc: Global,
    definition: &Module<'a>,
) -> Result<Vec<PortDeclaration<'a>>, NoMemory>
    ensures { IfOk result (λ ports. map view_port_declaration ports.items ≡ def.ports_of_head (view_module definition.now).head) }
{
    let mut ports = Vec::new(alloc);
    if let Some(list) = &definition.head {
        add_list(list, &mut ports)?;
    }
    Ok(ports)
}

fn add_list<'a>(
    list: &Option<Head<'a>>,
    ports: &mut Vec<PortDeclaration<'a>>,
) -> Result<(), NoMemory>
    ensures { OnOk result (map view_port_declaration ports.new.items ≡ map view_port_declaration ports.old.items ++ def.ports_of_head (Some (option_map view_head list.now))) }
{
    if let Some(head) = list {
        add_head(head, ports)?;
    }
    Ok(())
}

fn add_head<'a>(head: &Head<'a>, ports: &mut Vec<PortDeclaration<'a>>) -> Result<(), NoMemory>
    ensures { OnOk result (map view_port_declaration ports.new.items ≡ map view_port_declaration ports.old.items ++ def.ports_of_head (Some (Some (view_head head.now)))) }
{
    match head {
        Head::Names(_) => {}
        Head::Declarations { first, rest } => add_ports(*first, rest, ports)?,
    }
    Ok(())
}

fn add_ports<'a>(
    first: PortDeclaration<'a>,
    rest: &[HeadPort<'a>],
    ports: &mut Vec<PortDeclaration<'a>>,
) -> Result<(), NoMemory>
    ensures { OnOk result (map view_port_declaration ports.new.items ≡ map view_port_declaration ports.old.items ++ view_port_declaration first.entry ∷ def.ports_after (view_port_declaration first.entry) (map view_head_port rest.now)) }
{
    ports.push(first)?;
    let mut before = first;
    for port in rest {
        before = port_after(before, port);
        ports.push(before)?;
    }
    Ok(())
}

// A name alone is declared as the port before it.
fn port_after<'a>(before: PortDeclaration<'a>, port: &HeadPort<'a>) -> PortDeclaration<'a>
    ensures { view_port_declaration result ≡ one_after (view_port_declaration before.entry) (view_head_port port.now) }
{
    match port {
        HeadPort::Declaration(declaration) => *declaration,
        HeadPort::Name(name) => PortDeclaration {
            name: *name,
            ..before
        },
    }
}

fn add_item<'a>(item: &Item<'a>, ports: &mut Vec<PortDeclaration<'a>>) -> Result<(), NoMemory>
    ensures { OnOk result (map view_port_declaration ports.new.items ≡ map view_port_declaration ports.old.items ++ def.ports_of_item (view_item item.now)) }
{
    if let Item::Ports {
        place,
        direction,
        net,
        range,
        names,
    } = item
    {
        for name in names {
            ports.push(PortDeclaration {
                place: *place,
                direction: *direction,
                net: *net,
                range: *range,
                name: *name,
            })?;
        }
    }
    Ok(())
}
