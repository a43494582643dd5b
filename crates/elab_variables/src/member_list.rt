// The members of a module in a row.
ghost use Rattle.std.specs.Prelude.{◌≡◌, ◌++◌, IfOk, OnOk, map, filter_map, option_to_list};
ghost use Rattle.std.specs.Option.{option_map};
ghost use Rattle.vl_tree.specs.Seen.{view_name, view_net_name, view_join, view_delay, view_gate_instance, view_instance, view_specify_item, view_item, view_module};
ghost use Rattle.elab_model.specs.Members as def;
ghost use Rattle.elab_variables.specs.Seen.{view_member};

use sg_logic::{GateKind, Value};
use sg_text::NoMemory;
use std::alloc::Global;
use vl_tree::{
    Check, Delay, Expression, GateInstance, Instance, Item, Join, Module, Name, NetName,
    SpecifyItem, SpecifyPath, Supply,
};

/// A member of a module: what makes elements, or holds an instance.
#[derive(Clone, Copy, Debug)]
pub enum Member<'t, 'a> {
    /// A net that is assigned where it is declared (IEEE 1364-2005, 6.1.1).
    Declared {
        name: Name<'a>,
        value: &'t Expression<'a>,
    },
    /// A continuous assignment (IEEE 1364-2005, 6.1).
    Assignment(&'t Join<'a>),
    /// A supply net, and the value that drives it (IEEE 1364-2005, 4.6).
    Supply {
        name: Name<'a>,
        value: Value,
    },
    /// An instance of a gate (IEEE 1364-2005, 7.1).
    Gate {
        kind: GateKind,
        delay: &'t Option<Delay>,
        instance: &'t GateInstance<'a>,
    },
    /// An instance of the module or the primitive of a name (IEEE 1364-2005, 12.1.2, 8.6).
    Instance {
        definition: Name<'a>,
        delay: &'t Option<Delay>,
        instance: &'t Instance<'a>,
    },
    /// A specify path (IEEE 1364-2005, 14.2).
    Path(&'t SpecifyPath<'a>),
    /// A timing check (IEEE 1364-2005, 15.1).
    Check(&'t Check<'a>),
}

/// The members of a module, in text order. Takes memory.
pub fn members<'t, 'a>(
    alloc: Global,
    definition: &'t Module<'a>,
) -> Result<Vec<Member<'t, 'a>>, NoMemory>
    ensures { IfOk result (λ list. map view_member list.items ≡ def.members (view_module definition.now)) }
{
    let mut list = Vec::new(alloc);
    for item in &definition.items {
        add_item(item, &mut list)?;
    }
    Ok(list)
}

fn add_item<'t, 'a>(item: &'t Item<'a>, list: &mut Vec<Member<'t, 'a>>) -> Result<(), NoMemory>
    ensures { OnOk result (map view_member list.new.items ≡ map view_member list.old.items ++ def.members_of_item (view_item item.now)) }
{
    match item {
        Item::Nets { names, .. } => add_declared(names, list),
        Item::Supplies { supply, names, .. } => add_supplies(value_of(*supply), names, list),
        Item::Assigns { joins, .. } => add_assignments(joins, list),
        Item::Gates {
            gate,
            delay,
            instances,
            ..
        } => add_gates(*gate, delay, instances, list),
        Item::Instances {
            module,
            delay,
            instances,
        } => add_instances(*module, delay, instances, list),
        Item::Ports { .. } => Ok(()),
        Item::Registers { .. } => Ok(()),
        Item::Specify(block) => add_specify_items(&block.items, list),
    }
}

fn value_of(supply: Supply) -> Value
    ensures { result ≡ def.supply_value supply }
{
    match supply {
        Supply::Zero => Value::Zero,
        Supply::One => Value::One,
    }
}

fn add_declared<'t, 'a>(
    nets: &'t [NetName<'a>],
    list: &mut Vec<Member<'t, 'a>>,
) -> Result<(), NoMemory>
    ensures { OnOk result (map view_member list.new.items ≡ map view_member list.old.items ++ filter_map (λ n. def.assignment_to n.name n.value) (map view_net_name nets.now)) }
{
    for net in nets {
        add_value(net, list)?;
    }
    Ok(())
}

fn add_value<'t, 'a>(net: &'t NetName<'a>, list: &mut Vec<Member<'t, 'a>>) -> Result<(), NoMemory>
    ensures { OnOk result (map view_member list.new.items ≡ map view_member list.old.items ++ option_to_list (def.assignment_to (view_net_name net.now).name (view_net_name net.now).value)) }
{
    if let Some(value) = &net.value {
        list.push(Member::Declared {
            name: net.name,
            value,
        })?;
    }
    Ok(())
}

fn add_supplies<'t, 'a>(
    value: Value,
    names: &'t [Name<'a>],
    list: &mut Vec<Member<'t, 'a>>,
) -> Result<(), NoMemory>
    ensures { OnOk result (map view_member list.new.items ≡ map view_member list.old.items ++ map (λ n. def.supply n value) (map view_name names.now)) }
{
    for name in names {
        list.push(Member::Supply { name: *name, value })?;
    }
    Ok(())
}

fn add_assignments<'t, 'a>(
    joins: &'t [Join<'a>],
    list: &mut Vec<Member<'t, 'a>>,
) -> Result<(), NoMemory>
    ensures { OnOk result (map view_member list.new.items ≡ map view_member list.old.items ++ map def.assignment (map view_join joins.now)) }
{
    for join in joins {
        list.push(Member::Assignment(join))?;
    }
    Ok(())
}

fn add_gates<'t, 'a>(
    kind: GateKind,
    delay: &'t Option<Delay>,
    instances: &'t [GateInstance<'a>],
    list: &mut Vec<Member<'t, 'a>>,
) -> Result<(), NoMemory>
    ensures { OnOk result (map view_member list.new.items ≡ map view_member list.old.items ++ map (def.gate kind (option_map view_delay delay.now)) (map view_gate_instance instances.now)) }
{
    for instance in instances {
        list.push(Member::Gate {
            kind,
            delay,
            instance,
        })?;
    }
    Ok(())
}

fn add_instances<'t, 'a>(
    definition: Name<'a>,
    delay: &'t Option<Delay>,
    instances: &'t [Instance<'a>],
    list: &mut Vec<Member<'t, 'a>>,
) -> Result<(), NoMemory>
    ensures { OnOk result (map view_member list.new.items ≡ map view_member list.old.items ++ map (def.instance (view_name definition.entry) (option_map view_delay delay.now)) (map view_instance instances.now)) }
{
    for instance in instances {
        list.push(Member::Instance {
            definition,
            delay,
            instance,
        })?;
    }
    Ok(())
}

fn add_specify_items<'t, 'a>(
    items: &'t [SpecifyItem<'a>],
    list: &mut Vec<Member<'t, 'a>>,
) -> Result<(), NoMemory>
    ensures { OnOk result (map view_member list.new.items ≡ map view_member list.old.items ++ filter_map def.member_of_item (map view_specify_item items.now)) }
{
    for item in items {
        add_specify_item(item, list)?;
    }
    Ok(())
}

fn add_specify_item<'t, 'a>(
    item: &'t SpecifyItem<'a>,
    list: &mut Vec<Member<'t, 'a>>,
) -> Result<(), NoMemory>
    ensures { OnOk result (map view_member list.new.items ≡ map view_member list.old.items ++ option_to_list (def.member_of_item (view_specify_item item.now))) }
{
    match item {
        SpecifyItem::Path(path) => list.push(Member::Path(path))?,
        SpecifyItem::Check(check) => list.push(Member::Check(check))?,
        SpecifyItem::Specparams { .. } => {}
        SpecifyItem::PulseStyle { .. } => {}
    }
    Ok(())
}
