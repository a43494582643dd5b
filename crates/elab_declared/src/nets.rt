// The nets and regs that a module declares.
ghost use Rattle.std.specs.Prelude.{◌≡◌, ◌++◌, false, true, None, OnOk, IfOk, map};
ghost use Rattle.vl_tree.specs.Seen.{view_name, view_net_name, view_item, view_module};
ghost use Rattle.elab_model.specs.Ports as def;
ghost use Rattle.elab_declared.specs.Words.{view_net};

use sg_text::NoMemory;
use std::alloc::Global;
use vl_tree::{Item, Module, Name, NetName, Range};

/// A declaration of a net or a `reg` (IEEE 1364-2005, 4.2).
#[derive(Clone, Copy, Debug, PartialEq)]
pub struct NetDeclaration<'a> {
    pub name: Name<'a>,
    pub range: Option<Range>,
    pub reg: bool,
}

/// The nets and regs that a module's items declare. Takes memory.
pub fn net_declarations<'a>(
    alloc: Global,
    definition: &Module<'a>,
) -> Result<Vec<NetDeclaration<'a>>, NoMemory>
    ensures { IfOk result (λ nets. map view_net nets.items ≡ def.net_declarations (view_module definition.now)) }
{
    let mut nets = Vec::new(alloc);
    for item in &definition.items {
        add_item(item, &mut nets)?;
    }
    Ok(nets)
}

fn add_item<'a>(item: &Item<'a>, nets: &mut Vec<NetDeclaration<'a>>) -> Result<(), NoMemory>
    ensures { OnOk result (map view_net nets.new.items ≡ map view_net nets.old.items ++ def.nets_of_item (view_item item.now)) }
{
    match item {
        Item::Nets { range, names, .. } => add_nets(*range, names, nets)?,
        Item::Supplies { range, names, .. } => add_names(false, *range, names, nets)?,
        Item::Registers { names, .. } => add_names(true, None, names, nets)?,
        _ => {}
    }
    Ok(())
}

fn add_nets<'a>(
    range: Option<Range>,
    names: &[NetName<'a>],
    nets: &mut Vec<NetDeclaration<'a>>,
) -> Result<(), NoMemory>
    ensures { OnOk result (map view_net nets.new.items ≡ map view_net nets.old.items ++ map (λ n. def.net_as false range n.name) (map view_net_name names.now)) }
{
    for net in names {
        nets.push(NetDeclaration {
            name: net.name,
            range,
            reg: false,
        })?;
    }
    Ok(())
}

fn add_names<'a>(
    reg: bool,
    range: Option<Range>,
    names: &[Name<'a>],
    nets: &mut Vec<NetDeclaration<'a>>,
) -> Result<(), NoMemory>
    ensures { OnOk result (map view_net nets.new.items ≡ map view_net nets.old.items ++ map (def.net_as reg range) (map view_name names.now)) }
{
    for name in names {
        nets.push(NetDeclaration {
            name: *name,
            range,
            reg,
        })?;
    }
    Ok(())
}
