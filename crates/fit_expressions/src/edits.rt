// The changes of a module's expressions.
use crate::assigns::{Made, assign_made, nets_made};
use crate::connections::{Connected, edits_at};
use crate::fresh::first_free;
use crate::spans::{push_feeds, told_text, whole_span};
use fit_changes::Changes;
use fit_items::{Edit, Item, ItemKind, Module, Nets, Run, edit_of, joined_text, part_name};
use fit_terms::{Scope, Stop, has_signs};
use sg_text::NoMemory;
use std::alloc::Global;
use vl_token::Token;

// The edit that puts what was made in a statement's place.
fn whole_edit(
    alloc: Global,
    scope: &Scope<'_, '_>,
    files: &[Changes<'_>],
    whole: Run,
    made: Made,
) -> Result<Edit, Stop> {
    let Some(span) = whole_span(files, scope.part, whole) else {
        return Err(Stop::Other);
    };
    let mut text = made.text;
    // the blank behind the last statement
    text.pop();
    push_feeds(&mut text, files, span)?;
    let told = told_text(alloc, files, scope.part, whole)?;
    let what = joined_text(alloc, &told, b" as ", b"gates")?;
    Ok(edit_of(alloc, span, &text, made.rule, part_name(scope.part), what)?)
}

fn whole_connected(
    alloc: Global,
    scope: &Scope<'_, '_>,
    files: &[Changes<'_>],
    whole: Run,
    made: Made,
) -> Result<Connected, Stop> {
    let wires = made.wires;
    let edit = whole_edit(alloc, scope, files, whole, made)?;
    let mut edits = Vec::new(alloc);
    edits.push(edit)?;
    Ok(Connected { edits, wires })
}

// The edits of a statement.
fn item_edits(
    alloc: Global,
    scope: &Scope<'_, '_>,
    files: &[Changes<'_>],
    item: &Item,
    first: u64,
) -> Result<Connected, Stop> {
    let whole = item.whole;
    match &item.kind {
        ItemKind::Assign {
            strength,
            delay,
            sides,
        } if strength.is_empty() => {
            let made = assign_made(alloc, scope, *delay, sides, first)?;
            whole_connected(alloc, scope, files, whole, made)
        }
        ItemKind::Nets {
            word,
            strength,
            range,
            delay,
            names,
        } if strength.is_empty() => {
            let made = nets_made(alloc, scope, *word, *range, *delay, names, first)?;
            whole_connected(alloc, scope, files, whole, made)
        }
        ItemKind::Gates {
            word,
            instances,
            ..
        } => edits_at(alloc, scope, files, whole, Some(*word), instances, first),
        ItemKind::Instances { instances, .. } => {
            edits_at(alloc, scope, files, whole, None, instances, first)
        }
        _ => Err(Stop::Other),
    }
}

// Adds the edits of a statement, and gives the number of the next wire.
fn add_item(
    alloc: Global,
    scope: &Scope<'_, '_>,
    files: &[Changes<'_>],
    item: &Item,
    first: u64,
    edits: &mut Vec<Edit>,
) -> Result<u64, NoMemory> {
    match item_edits(alloc, scope, files, item, first) {
        Ok(found) => {
            let Connected {
                edits: mut more,
                wires,
            } = found;
            edits.append(&mut more)?;
            Ok(first.saturating_add(wires))
        }
        Err(Stop::Other) => Ok(first),
        Err(Stop::NoMemory) => Err(NoMemory),
    }
}

/// The changes that make gates and primitives of a module's expressions, in the order of bytes: of assignments, values of nets,
/// terminals and connections. A statement whose expressions can't all be made so stays as it is. Takes memory.
pub fn expression_edits(
    alloc: Global,
    part: &[Token<'_>],
    module: &Module,
    nets: &Nets<'_>,
    files: &[Changes<'_>],
) -> Result<Vec<Edit>, NoMemory> {
    let mut edits = Vec::new(alloc);
    if has_signs(part) {
        return Ok(edits);
    }
    let scope = Scope { part, module, nets };
    let mut first = first_free(part);
    for item in &module.items {
        first = add_item(alloc, &scope, files, item, first, &mut edits)?;
    }
    Ok(edits)
}
