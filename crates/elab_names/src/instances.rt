// The names of instances.
ghost use Rattle.std.specs.Prelude.{◌≡◌, ◌++◌, OnOk, IfOk, map, filter_map, option_to_list};
ghost use Rattle.std.specs.Option.{option_map};
ghost use Rattle.vl_tree.specs.Seen.{view_name, view_gate_instance, view_instance, view_item, view_module};
ghost use Rattle.elab_model.specs.Members.{members, members_of_item};
ghost use Rattle.elab_model.specs.NameFaults.{instance_name};

use sg_text::NoMemory;
use std::alloc::Global;
use vl_tree::{GateInstance, Instance, Item, Module, Name};

/// The names of the instances in a module, of gates, primitives and modules, in text order (IEEE 1364-2005, 7.1, 12.1.2).
/// Takes memory.
pub fn instance_names<'a>(alloc: Global, definition: &Module<'a>) -> Result<Vec<Name<'a>>, NoMemory>
    ensures { IfOk result (λ names. map view_name names.items ≡ filter_map instance_name (members (view_module definition.now))) }
{
    let mut names = Vec::new(alloc);
    for item in &definition.items {
        add_item(item, &mut names)?;
    }
    Ok(names)
}

fn add_item<'a>(item: &Item<'a>, names: &mut Vec<Name<'a>>) -> Result<(), NoMemory>
    ensures { OnOk result (map view_name names.new.items ≡ map view_name names.old.items ++ filter_map instance_name (members_of_item (view_item item.now))) }
{
    match item {
        Item::Gates { instances, .. } => add_gates(instances, names)?,
        Item::Instances { instances, .. } => add_instances(instances, names)?,
        Item::Ports { .. } => {}
        Item::Nets { .. } => {}
        Item::Supplies { .. } => {}
        Item::Registers { .. } => {}
        Item::Assigns { .. } => {}
        Item::Specify(_) => {}
    }
    Ok(())
}

fn add_gates<'a>(instances: &[GateInstance<'a>], names: &mut Vec<Name<'a>>) -> Result<(), NoMemory>
    ensures { OnOk result (map view_name names.new.items ≡ map view_name names.old.items ++ filter_map (λ i. i.name) (map view_gate_instance instances.now)) }
{
    for instance in instances {
        add_name(instance.name, names)?;
    }
    Ok(())
}

fn add_instances<'a>(instances: &[Instance<'a>], names: &mut Vec<Name<'a>>) -> Result<(), NoMemory>
    ensures { OnOk result (map view_name names.new.items ≡ map view_name names.old.items ++ filter_map (λ i. i.name) (map view_instance instances.now)) }
{
    for instance in instances {
        add_name(instance.name, names)?;
    }
    Ok(())
}

fn add_name<'a>(name: Option<Name<'a>>, names: &mut Vec<Name<'a>>) -> Result<(), NoMemory>
    ensures { OnOk result (map view_name names.new.items ≡ map view_name names.old.items ++ option_to_list (option_map view_name name.entry)) }
{
    if let Some(name) = name {
        names.push(name)?;
    }
    Ok(())
}
