// `ifnone` before a path with an edge: it holds where each condition of the paths with the same ends is 0 (IEEE 1364-2005, 14.2.4).
use crate::ends::{Ends, Relation, ends_of, relation_of};
use fit_changes::Rule;
use fit_items::{Run, SpecifyKind, SpecifyPart};
use fit_values::{Ask, View};
use sg_text::NoMemory;

// Adds `((condition) === 1'b0)`, and `&&` before it where it isn't the first.
fn push_condition(
    view: &View<'_, '_, '_>,
    text: &mut Vec<u8>,
    condition: Run,
) -> Result<(), NoMemory> {
    if !text.is_empty() {
        text.extend_from_slice(b" && ")?;
    }
    text.extend_from_slice(b"((")?;
    view.push(text, condition)?;
    text.extend_from_slice(b") === 1'b0)")?;
    Ok(())
}

// That none of the conditions of the other paths with these ends holds; None where that can't be said.
fn none_of(
    view: &View<'_, '_, '_>,
    parts: &[SpecifyPart],
    ends: &Ends,
) -> Result<Option<Vec<u8>>, NoMemory> {
    let mut text = Vec::new(view.alloc);
    for part in parts {
        let SpecifyKind::Path {
            condition,
            head,
            ..
        } = &part.kind
        else {
            continue;
        };
        if condition.is_empty() {
            continue;
        }
        let Some(other) = ends_of(view, *head) else {
            return Ok(None);
        };
        match relation_of(view, ends, &other)? {
            Relation::Same => push_condition(view, &mut text, *condition)?,
            Relation::Apart => {}
            Relation::Other => return Ok(None),
        }
    }
    Ok(Some(text))
}

// The text that takes the place of the word `ifnone`.
fn text_for(view: &View<'_, '_, '_>, none: &[u8]) -> Result<Vec<u8>, NoMemory> {
    let mut text = Vec::new(view.alloc);
    if !none.is_empty() {
        text.extend_from_slice(b"if (")?;
        text.extend_from_slice(none)?;
        text.push(b')')?;
    }
    Ok(text)
}

// It says `ifnone of HEAD is CONDITION`, or that it goes.
fn what_for(view: &View<'_, '_, '_>, head: Run, text: &[u8]) -> Result<Vec<u8>, NoMemory> {
    let mut what = Vec::from_slice(view.alloc, b"ifnone of ")?;
    what.extend_from_slice(&view.text(head)?)?;
    if text.is_empty() {
        what.extend_from_slice(b" goes")?;
    } else {
        what.extend_from_slice(b" is ")?;
        what.extend_from_slice(text)?;
    }
    Ok(what)
}

/// Asks for a condition in the place of `ifnone` before a path with an edge; where no path with its ends has one, it goes.
pub fn ifnone_ask(
    view: &View<'_, '_, '_>,
    parts: &[SpecifyPart],
    whole: Run,
    head: Run,
    asks: &mut Vec<Ask>,
) -> Result<(), NoMemory> {
    let Some(ends) = ends_of(view, head) else {
        return Ok(());
    };
    if ends.edge.is_none() {
        return Ok(());
    }
    let Some(none) = none_of(view, parts, &ends)? else {
        return Ok(());
    };
    let text = text_for(view, &none)?;
    let what = what_for(view, head, &text)?;
    asks.push(Ask {
        run: Run {
            first: whole.first,
            end: whole.first.saturating_add(1),
        },
        text,
        rule: Rule::IfnoneEdge,
        what,
    })?;
    Ok(())
}
