// The items of a module's specify blocks, gathered in one pass.
ghost use Rattle.std.specs.Prelude.{◌∷◌, [], IfOk, OnOk, map};
ghost use Rattle.vl_tree.specs.Seen.{view_item, view_module, view_specify_item, view_specparam};
ghost use Rattle.specify_model.specs.Blocks as def;
ghost use Rattle.specify_values.specs.Seen.{AreItems, Adds, AddsSpecparams};

use crate::items::{BlockItems, Parameter, Pulse, StyleText};
use sg_text::NoMemory;
use std::alloc::Global;
use vl_tree::{Item, Module, SpecifyItem, Specparam};

/// The items of all specify blocks of a module. Takes memory in proportion to them.
pub fn block_items<'t, 'a>(
    alloc: Global,
    definition: &'t Module<'a>,
) -> Result<BlockItems<'t, 'a>, NoMemory>
    ensures { IfOk result (AreItems (def.specify_items (view_module definition.now))) }
{
    let mut items = BlockItems {
        parameters: Vec::new(alloc),
        pulses: Vec::new(alloc),
        paths: Vec::new(alloc),
        styles: Vec::new(alloc),
        checks: Vec::new(alloc),
    };
    for item in &definition.items {
        add_item(item, &mut items)?;
    }
    Ok(items)
}

fn add_item<'t, 'a>(item: &'t Item<'a>, items: &mut BlockItems<'t, 'a>) -> Result<(), NoMemory>
    ensures { OnOk result (Adds (def.items_of_item (view_item item.now)) items.old items.new) }
{
    match item {
        Item::Specify(block) => add_all(&block.items, items),
        Item::Ports { .. } => Ok(()),
        Item::Nets { .. } => Ok(()),
        Item::Supplies { .. } => Ok(()),
        Item::Registers { .. } => Ok(()),
        Item::Assigns { .. } => Ok(()),
        Item::Gates { .. } => Ok(()),
        Item::Instances { .. } => Ok(()),
    }
}

fn add_all<'t, 'a>(
    list: &'t [SpecifyItem<'a>],
    items: &mut BlockItems<'t, 'a>,
) -> Result<(), NoMemory>
    ensures { OnOk result (Adds (map view_specify_item list.now) items.old items.new) }
{
    for item in list {
        add_one(item, items)?;
    }
    Ok(())
}

fn add_one<'t, 'a>(
    item: &'t SpecifyItem<'a>,
    items: &mut BlockItems<'t, 'a>,
) -> Result<(), NoMemory>
    ensures { OnOk result (Adds (view_specify_item item.now ∷ []) items.old items.new) }
{
    match item {
        SpecifyItem::Specparams { parameters, .. } => add_specparams(parameters, items)?,
        SpecifyItem::Path(path) => items.paths.push(path)?,
        SpecifyItem::PulseStyle { style, terms, .. } => items.styles.push(StyleText {
            style: *style,
            terms,
        })?,
        SpecifyItem::Check(check) => items.checks.push(check)?,
    }
    Ok(())
}

fn add_specparams<'t, 'a>(
    specparams: &[Specparam<'a>],
    items: &mut BlockItems<'t, 'a>,
) -> Result<(), NoMemory>
    ensures { OnOk result (AddsSpecparams (map view_specparam specparams.now) items.old items.new) }
{
    for specparam in specparams {
        add_specparam(*specparam, items)?;
    }
    Ok(())
}

fn add_specparam<'t, 'a>(
    specparam: Specparam<'a>,
    items: &mut BlockItems<'t, 'a>,
) -> Result<(), NoMemory>
    ensures { OnOk result (AddsSpecparams (view_specparam specparam.entry ∷ []) items.old items.new) }
{
    match specparam {
        Specparam::Value { name, value } => items.parameters.push(Parameter { name, value })?,
        Specparam::PulseLimits {
            name,
            reject,
            error,
        } => items.pulses.push(Pulse {
            name,
            reject,
            error,
        })?,
    }
    Ok(())
}
