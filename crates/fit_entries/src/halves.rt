// Entries of two limits that are for different checks (IEEE 1497-2001, SETUPHOLD and RECREM).
use crate::notes::{Note, add_note};
use crate::places::{Scope, settle};
use crate::stamps::in_halves;
use fit_changes::Rule;
use fit_delays::{Draft, push_term};
use sg_text::NoMemory;
use std::alloc::Global;

// How the terminals of an entry are written for its place, if it has one.
fn terms_at_place(
    alloc: Global,
    scope: &Scope<'_, '_, '_>,
    draft: &Draft<'_, '_>,
) -> Result<Option<Vec<u8>>, NoMemory> {
    let mut made = draft.copy(alloc)?;
    let mut notes = Vec::new(alloc);
    let settled = settle(alloc, scope, &mut made, &mut notes)?;
    if !settled.found {
        return Ok(None);
    }
    let mut text = Vec::new(alloc);
    for term in &made.terms {
        text.push(b' ')?;
        push_term(&mut text, term)?;
    }
    Ok(Some(text))
}

// Whether two entries have places for which their terminals are written differently.
fn are_apart(
    alloc: Global,
    scope: &Scope<'_, '_, '_>,
    one: &Draft<'_, '_>,
    other: &Draft<'_, '_>,
) -> Result<bool, NoMemory> {
    let first = terms_at_place(alloc, scope, one)?;
    let second = terms_at_place(alloc, scope, other)?;
    Ok(match (first, second) {
        (Some(first), Some(second)) => first != second,
        _ => false,
    })
}

/// The entries with one for each limit, where no entry of both limits would be for the checks of both. Takes memory.
pub fn limit_by_limit<'t, 'a>(
    alloc: Global,
    scope: &Scope<'_, '_, '_>,
    drafts: Vec<Draft<'t, 'a>>,
    notes: &mut Vec<Note>,
) -> Result<Vec<Draft<'t, 'a>>, NoMemory> {
    let mut list = Vec::new(alloc);
    for draft in drafts {
        let Some((one, other)) = in_halves(alloc, &draft)? else {
            list.push(draft)?;
            continue;
        };
        if !are_apart(alloc, scope, &one, &other)? {
            list.push(draft)?;
            continue;
        }
        list.push(one)?;
        list.push(other)?;
        add_note(
            alloc,
            notes,
            Rule::SplitCheck,
            &[b"an entry for each limit, since they are for different checks"],
        )?;
    }
    Ok(list)
}
