// Ports of several bits (IEEE 1497-2001, port instances).
use crate::notes::{Note, add_note};
use fit_changes::Rule;
use fit_delays::{Bits, Draft, Port, Term};
use sg_text::NoMemory;
use std::alloc::Global;

// No entry gives way to more.
const MOST: u64 = 65536;

/// Whether a port has several bits, as `d[3:0]`.
pub fn is_bus(port: Port<'_>) -> bool {
    match port.bits {
        Bits::Some { .. } => true,
        _ => false,
    }
}

fn width_of(port: Port<'_>) -> u64 {
    match port.bits {
        Bits::Some { left, right } => left.abs_diff(right).saturating_add(1),
        _ => 1,
    }
}

// How many entries there are for an entry with one for each bit of its ports.
fn count_of(draft: &Draft<'_, '_>) -> u64 {
    let mut count: u64 = 1;
    for term in &draft.terms {
        count = count.saturating_mul(width_of(term.port));
    }
    count
}

fn with_bit<'a>(alloc: Global, term: &Term<'a>, index: i64) -> Result<Term<'a>, NoMemory> {
    let mut made = term.copy(alloc)?;
    made.port = Port {
        path: term.port.path,
        bits: Bits::One(index),
    };
    Ok(made)
}

// A term for each bit, from the left one.
fn bits_of<'a>(alloc: Global, term: &Term<'a>) -> Result<Vec<Term<'a>>, NoMemory> {
    let mut list = Vec::new(alloc);
    match term.port.bits {
        Bits::Some { left, right } if left <= right => {
            for index in left..right.saturating_add(1) {
                list.push(with_bit(alloc, term, index)?)?;
            }
        }
        Bits::Some { left, right } => {
            for index in (right..left.saturating_add(1)).rev() {
                list.push(with_bit(alloc, term, index)?)?;
            }
        }
        _ => list.push(term.copy(alloc)?)?,
    }
    Ok(list)
}

fn with_term<'t, 'a>(
    alloc: Global,
    draft: &Draft<'t, 'a>,
    place: usize,
    term: &Term<'a>,
) -> Result<Draft<'t, 'a>, NoMemory> {
    let mut made = draft.copy(alloc)?;
    if let Some(own) = made.terms.get_mut(place) {
        *own = term.copy(alloc)?;
    }
    Ok(made)
}

// An entry for each bit of the port at a place.
fn spread<'t, 'a>(
    alloc: Global,
    drafts: Vec<Draft<'t, 'a>>,
    place: usize,
) -> Result<Vec<Draft<'t, 'a>>, NoMemory> {
    let mut list = Vec::new(alloc);
    for draft in drafts {
        let bits = match draft.terms.get(place) {
            Some(term) if is_bus(term.port) => bits_of(alloc, term)?,
            _ => {
                list.push(draft)?;
                continue;
            }
        };
        for term in &bits {
            list.push(with_term(alloc, &draft, place, term)?)?;
        }
    }
    Ok(list)
}

fn has_bus(drafts: &[Draft<'_, '_>]) -> bool {
    drafts
        .iter()
        .any(|draft| draft.terms.iter().any(|term| is_bus(term.port)))
}

/// The entries with one for each bit of their ports, if there aren't too many. Takes memory for them.
pub fn bit_by_bit<'t, 'a>(
    alloc: Global,
    drafts: Vec<Draft<'t, 'a>>,
    notes: &mut Vec<Note>,
) -> Result<Vec<Draft<'t, 'a>>, NoMemory> {
    if !has_bus(&drafts) || drafts.iter().any(|draft| count_of(draft) > MOST) {
        return Ok(drafts);
    }
    let list = spread(alloc, drafts, 0)?;
    let list = spread(alloc, list, 1)?;
    add_note(alloc, notes, Rule::BusPort, &[b"an entry for each bit"])?;
    Ok(list)
}
