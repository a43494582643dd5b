// The ranges that declarations give to names.
ghost use Rattle.std.specs.Prelude.{◌≡◌, ◌++◌, OnOk, IfOk, map};
ghost use Rattle.vl_tree.specs.Seen.{view_name, view_net_name, view_item, view_module, view_port_declaration};
ghost use Rattle.elab_model.specs.NameFaults.{range_texts};
ghost use Rattle.elab_names.specs.GivenRanges.{given, port_given, given_by_item, with_range, view_range};

use elab_declared::ports_of_head;
use sg_text::NoMemory;
use std::alloc::Global;
use vl_tree::{Item, Module, Name, NetName, PortDeclaration, Range};

/// A name, and the range that one declaration of it has (IEEE 1364-2005, 4.3.1).
#[derive(Clone, Copy, Debug, PartialEq)]
pub struct NamedRange<'a> {
    pub name: Name<'a>,
    pub range: Option<Range>,
}

/// The names that a module declares as ports, nets and regs, each with its range, in text order. Takes memory.
pub fn named_ranges<'a>(
    alloc: Global,
    definition: &Module<'a>,
) -> Result<Vec<NamedRange<'a>>, NoMemory>
    ensures { IfOk result (λ ranges. map view_range ranges.items ≡ given (range_texts (view_module definition.now))) }
{
    let ports = ports_of_head(alloc, definition)?;
    let mut ranges = ranges_of_ports(alloc, &ports)?;
    for item in &definition.items {
        add_item(item, &mut ranges)?;
    }
    Ok(ranges)
}

fn ranges_of_ports<'a>(
    alloc: Global,
    ports: &[PortDeclaration<'a>],
) -> Result<Vec<NamedRange<'a>>, NoMemory>
    ensures { IfOk result (λ ranges. map view_range ranges.items ≡ map port_given (map view_port_declaration ports.now)) }
{
    let mut ranges = Vec::new(alloc);
    for port in ports {
        ranges.push(NamedRange {
            name: port.name,
            range: port.range,
        })?;
    }
    Ok(ranges)
}

fn add_item<'a>(item: &Item<'a>, ranges: &mut Vec<NamedRange<'a>>) -> Result<(), NoMemory>
    ensures { OnOk result (map view_range ranges.new.items ≡ map view_range ranges.old.items ++ given_by_item (view_item item.now)) }
{
    match item {
        Item::Ports { range, names, .. } => add_names(*range, names, ranges)?,
        Item::Nets { range, names, .. } => add_nets(*range, names, ranges)?,
        Item::Supplies { range, names, .. } => add_names(*range, names, ranges)?,
        Item::Registers { names, .. } => add_names(None, names, ranges)?,
        _ => {}
    }
    Ok(())
}

fn add_names<'a>(
    range: Option<Range>,
    names: &[Name<'a>],
    ranges: &mut Vec<NamedRange<'a>>,
) -> Result<(), NoMemory>
    ensures { OnOk result (map view_range ranges.new.items ≡ map view_range ranges.old.items ++ map (with_range range) (map view_name names.now)) }
{
    for name in names {
        ranges.push(NamedRange { name: *name, range })?;
    }
    Ok(())
}

fn add_nets<'a>(
    range: Option<Range>,
    names: &[NetName<'a>],
    ranges: &mut Vec<NamedRange<'a>>,
) -> Result<(), NoMemory>
    ensures { OnOk result (map view_range ranges.new.items ≡ map view_range ranges.old.items ++ map (λ n. with_range range n.name) (map view_net_name names.now)) }
{
    for net in names {
        ranges.push(NamedRange {
            name: net.name,
            range,
        })?;
    }
    Ok(())
}
