// Strengths of a net's only driver, which nothing can see (IEEE 1364-2005, 7.9).
use crate::pulls::Known;
use fit_cells::net_names;
use fit_changes::Rule;
use fit_items::{Declared, Instance, ItemKind, Run, Side, is_one_of, name_at, tokens_of};
use fit_values::{Ask, View};
use sg_text::NoMemory;

// Whether a run is the strengths of a driver of 0 and of 1.
fn is_drive(view: &View<'_, '_, '_>, run: Run) -> bool {
    let tokens = tokens_of(view.part, run);
    tokens.len() == 3
        && tokens
            .iter()
            .all(|token| !is_one_of(token, &["highz0", "highz1"]))
}

fn are_sole(view: &View<'_, '_, '_>, run: Run, known: &Known<'_, '_>) -> Result<bool, NoMemory> {
    let names = net_names(view.alloc, view.part, run)?;
    Ok(names.iter().all(|name| known.is_sole(name)))
}

// The first terminal of each gate is an output.
fn are_outputs_sole(
    view: &View<'_, '_, '_>,
    instances: &[Instance],
    known: &Known<'_, '_>,
) -> Result<bool, NoMemory> {
    for gate in instances {
        let Some(output) = gate.connections.first() else {
            return Ok(false);
        };
        if !are_sole(view, output.value, known)? {
            return Ok(false);
        }
    }
    Ok(true)
}

fn are_sides_sole(
    view: &View<'_, '_, '_>,
    sides: &[Side],
    known: &Known<'_, '_>,
) -> Result<bool, NoMemory> {
    for side in sides {
        if !are_sole(view, side.left, known)? {
            return Ok(false);
        }
    }
    Ok(true)
}

fn are_nets_sole(view: &View<'_, '_, '_>, names: &[Declared], known: &Known<'_, '_>) -> bool {
    names.iter().all(|net| match name_at(view.part, net.name) {
        Some(name) => known.is_sole(name),
        None => false,
    })
}

fn strength_of(kind: &ItemKind) -> Option<Run> {
    let run = match kind {
        ItemKind::Nets { strength, .. } => *strength,
        ItemKind::Assign { strength, .. } => *strength,
        ItemKind::Gates { strength, .. } => *strength,
        _ => return None,
    };
    if run.is_empty() { None } else { Some(run) }
}

fn is_sole(
    view: &View<'_, '_, '_>,
    kind: &ItemKind,
    known: &Known<'_, '_>,
) -> Result<bool, NoMemory> {
    match kind {
        ItemKind::Nets { names, .. } => Ok(are_nets_sole(view, names, known)),
        ItemKind::Assign { sides, .. } => are_sides_sole(view, sides, known),
        ItemKind::Gates { instances, .. } => are_outputs_sole(view, instances, known),
        _ => Ok(false),
    }
}

/// Asks that the strength of a sole driver goes.
pub fn strength_asks(
    view: &View<'_, '_, '_>,
    kind: &ItemKind,
    known: &Known<'_, '_>,
    asks: &mut Vec<Ask>,
) -> Result<(), NoMemory> {
    let Some(strength) = strength_of(kind) else {
        return Ok(());
    };
    if !is_drive(view, strength) || !is_sole(view, kind, known)? {
        return Ok(());
    }
    let run = Run {
        first: strength.first.saturating_sub(1),
        end: strength.end.saturating_add(1),
    };
    let mut what = view.text(run)?;
    what.extend_from_slice(b" of a sole driver goes")?;
    asks.push(Ask {
        run,
        text: Vec::new(view.alloc),
        rule: Rule::Strength,
        what,
    })?;
    Ok(())
}
