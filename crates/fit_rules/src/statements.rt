// What the rules ask for in a module, statement by statement.
use crate::covering::are_covered;
use crate::editing::statement_edits;
use crate::ifnone::ifnone_ask;
use fit_cells::{Cell, Cells, Drivers, drivers_of};
use fit_items::{Edit, Item, ItemKind, Nets, Run, SpecifyKind, SpecifyPart};
use fit_nets::{
    Known, Supplies, array_asks, constants, power_pins, pulls, strength_asks, supplies,
};
use fit_values::{
    Ask, Values, View, bracket_asks, check_asks, delay_asks, gate_delay_asks, parameter_asks,
    specparam_asks, values_of,
};
use sg_text::NoMemory;

/// What is known of the module at which the rules look.
#[derive(Clone, Copy)]
struct Facts<'k, 'a> {
    cells: &'k Cells<'a>,
    cell: &'k Cell<'a>,
    supplies: Supplies<'k>,
    drivers: &'k Drivers<'a>,
    nets: &'k Nets<'a>,
    values: &'k Values<'a>,
}

impl<'k, 'a> Facts<'k, 'a> {
    fn known(&self) -> Known<'k, 'a> {
        Known {
            cell: self.cell,
            drivers: self.drivers,
        }
    }
}

fn net_asks(
    view: &View<'_, '_, '_>,
    item: &Item,
    facts: &Facts<'_, '_>,
    asks: &mut Vec<Ask>,
) -> Result<(), NoMemory> {
    if let ItemKind::Nets {
        word,
        delay,
        names,
        ..
    } = &item.kind
    {
        pulls::net_asks(view, item.whole, *word, names, &facts.known(), asks)?;
        constants::net_asks(view, names, facts.nets, asks)?;
        gate_delay_asks(view, *delay, facts.values, asks)?;
    }
    Ok(())
}

fn gate_asks(
    view: &View<'_, '_, '_>,
    item: &Item,
    facts: &Facts<'_, '_>,
    asks: &mut Vec<Ask>,
) -> Result<(), NoMemory> {
    if let ItemKind::Gates {
        word,
        delay,
        instances,
        ..
    } = &item.kind
    {
        pulls::gate_asks(view, item.whole, *word, instances, &facts.known(), asks)?;
        array_asks(view, item.whole, instances, facts.nets, asks)?;
        constants::gate_asks(view, instances, asks)?;
        gate_delay_asks(view, *delay, facts.values, asks)?;
    }
    Ok(())
}

fn other_asks(
    view: &View<'_, '_, '_>,
    item: &Item,
    facts: &Facts<'_, '_>,
    asks: &mut Vec<Ask>,
) -> Result<(), NoMemory> {
    match &item.kind {
        ItemKind::Assign { delay, sides, .. } => {
            constants::side_asks(view, sides, facts.nets, asks)?;
            gate_delay_asks(view, *delay, facts.values, asks)
        }
        ItemKind::Instances {
            module,
            values,
            instances,
        } => {
            constants::instance_asks(view, *module, instances, facts.cells, asks)?;
            gate_delay_asks(view, *values, facts.values, asks)
        }
        _ => Ok(()),
    }
}

// What is asked for in a statement, but for a specify block.
fn item_asks(
    view: &View<'_, '_, '_>,
    item: &Item,
    facts: &Facts<'_, '_>,
) -> Result<Vec<Ask>, NoMemory> {
    let mut asks = Vec::new(view.alloc);
    supplies::port_asks(view, item.whole, &item.kind, &facts.supplies, &mut asks)?;
    power_pins::declared_asks(
        view,
        item.whole,
        &item.kind,
        facts.cell,
        &facts.supplies,
        &mut asks,
    )?;
    strength_asks(view, &item.kind, &facts.known(), &mut asks)?;
    net_asks(view, item, facts, &mut asks)?;
    gate_asks(view, item, facts, &mut asks)?;
    other_asks(view, item, facts, &mut asks)?;
    if !facts.values.is_empty() {
        bracket_asks(view, item.whole, facts.values, &mut asks)?;
    }
    Ok(asks)
}

fn specify_asks(
    view: &View<'_, '_, '_>,
    parts: &[SpecifyPart],
    part: &SpecifyPart,
    values: &Values<'_>,
) -> Result<Vec<Ask>, NoMemory> {
    let mut asks = Vec::new(view.alloc);
    match &part.kind {
        SpecifyKind::Check { word, arguments } => {
            check_asks(view, *word, arguments, values, &mut asks)?
        }
        SpecifyKind::Path {
            ifnone,
            head,
            delays,
            ..
        } => {
            if *ifnone {
                ifnone_ask(view, parts, part.whole, *head, &mut asks)?;
            }
            delay_asks(view, *delays, values, &mut asks)?;
        }
        SpecifyKind::Params(_) | SpecifyKind::Style | SpecifyKind::Other => {}
    }
    Ok(asks)
}

// Adds the changes of specparams.
fn specparam_edits(
    view: &View<'_, '_, '_>,
    parts: &[SpecifyPart],
    values: &Values<'_>,
    edits: &mut Vec<Edit>,
) -> Result<(), NoMemory> {
    for part in parts {
        if let SpecifyKind::Params(list) = &part.kind {
            let mut asks = Vec::new(view.alloc);
            specparam_asks(view, list, values, &mut asks)?;
            statement_edits(view, part.whole, asks, edits)?;
        }
    }
    Ok(())
}

// Specparams stay as they are where a use of one can't be changed: such a use would have another value.
fn block_edits(
    view: &View<'_, '_, '_>,
    parts: &[SpecifyPart],
    values: &Values<'_>,
    edits: &mut Vec<Edit>,
) -> Result<(), NoMemory> {
    let mut are_done = true;
    for part in parts {
        let asks = specify_asks(view, parts, part, values)?;
        are_done &= statement_edits(view, part.whole, asks, edits)?;
    }
    if are_done {
        specparam_edits(view, parts, values, edits)?;
    }
    Ok(())
}

// Adds the changes of a statement, and the tokens that they replace.
fn item_edits(
    view: &View<'_, '_, '_>,
    item: &Item,
    facts: &Facts<'_, '_>,
    runs: &mut Vec<Run>,
    edits: &mut Vec<Edit>,
) -> Result<(), NoMemory> {
    match &item.kind {
        ItemKind::Other | ItemKind::Params(_) => Ok(()),
        ItemKind::Specify(parts) => block_edits(view, parts, facts.values, edits),
        _ => {
            let asks = item_asks(view, item, facts)?;
            for ask in &asks {
                runs.push(ask.run)?;
            }
            statement_edits(view, item.whole, asks, edits)?;
            Ok(())
        }
    }
}

// The place of the first statement, or of the last word.
fn body_place(view: &View<'_, '_, '_>) -> usize {
    for item in &view.module.items {
        if item.whole.first > view.module.head_run.end {
            return item.whole.first;
        }
    }
    view.part.len().saturating_sub(1)
}

fn head_edits(
    view: &View<'_, '_, '_>,
    facts: &Facts<'_, '_>,
    runs: &mut Vec<Run>,
    edits: &mut Vec<Edit>,
) -> Result<(), NoMemory> {
    let head = view.module.head_run;
    let mut asks = Vec::new(view.alloc);
    supplies::head_asks(view, facts.cell, &facts.supplies, &mut asks)?;
    power_pins::head_asks(view, facts.cell, &facts.supplies, &mut asks)?;
    if !facts.values.is_empty() {
        bracket_asks(view, head, facts.values, &mut asks)?;
    }
    for ask in &asks {
        runs.push(ask.run)?;
    }
    statement_edits(view, head, asks, edits)?;
    let at = body_place(view);
    if let Some(ask) = supplies::declaration_ask(view, &facts.supplies, at)? {
        let mut asks = Vec::new(view.alloc);
        asks.push(ask)?;
        statement_edits(view, Run::none(at), asks, edits)?;
    }
    Ok(())
}

// Adds the changes by which parameters go, whose values stand in the place of their uses.
fn parameter_edits(
    view: &View<'_, '_, '_>,
    values: &Values<'_>,
    edits: &mut Vec<Edit>,
) -> Result<(), NoMemory> {
    for item in &view.module.items {
        if let ItemKind::Params(list) = &item.kind {
            let mut asks = Vec::new(view.alloc);
            parameter_asks(view, item.whole, list, values, &mut asks)?;
            statement_edits(view, item.whole, asks, edits)?;
        }
    }
    Ok(())
}

fn all_edits(
    view: &View<'_, '_, '_>,
    facts: &Facts<'_, '_>,
    edits: &mut Vec<Edit>,
) -> Result<(), NoMemory> {
    let mut runs = Vec::new(view.alloc);
    head_edits(view, facts, &mut runs, edits)?;
    for item in &view.module.items {
        item_edits(view, item, facts, &mut runs, edits)?;
    }
    if !facts.values.is_empty() && are_covered(view, &runs, facts.values)? {
        parameter_edits(view, facts.values, edits)?;
    }
    Ok(())
}

/// Adds the changes that the rules ask for in a module. Takes memory.
pub fn module_edits<'a>(
    view: &View<'_, 'a, '_>,
    cells: &Cells<'a>,
    nets: &Nets<'a>,
    supplies: Supplies<'_>,
    edits: &mut Vec<Edit>,
) -> Result<(), NoMemory> {
    let Some(cell) = cells.get(view.name()) else {
        return Ok(());
    };
    let facts = Facts {
        cells,
        cell,
        supplies,
        drivers: &drivers_of(view.alloc, view.part, view.module, cells)?,
        nets,
        values: &values_of(view.alloc, view.part, view.module)?,
    };
    all_edits(view, &facts, edits)
}
