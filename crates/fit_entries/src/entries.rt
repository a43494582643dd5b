// Entries, each by itself.
use crate::buses::{bit_by_bit, is_bus};
use crate::halves::limit_by_limit;
use crate::notes::{Note, add_note};
use crate::places::{Scope, Settled, settle};
use crate::stamps::unstamped;
use fit_changes::Rule;
use fit_delays::{Draft, has_long_exponent, keyword_of, read_draft};
use itoa::Buffer;
use sdf_lex::Token;
use sdf_tree::Keyword;
use sg_text::NoMemory;
use std::alloc::Global;

/// An entry: its tokens, what is written in its place, with what came of each, and what is told.
#[derive(Drop)]
pub struct Work<'t, 'a> {
    pub group: &'t [Token<'a>],
    pub drafts: Vec<Draft<'t, 'a>>,
    pub settled: Vec<Settled>,
    pub notes: Vec<Note>,
}

fn is_retain(value: &[Token<'_>]) -> bool {
    match keyword_of(value) {
        Some(Keyword::Retain) => true,
        _ => false,
    }
}

// How many values a list gets that has another number than 1, 2, 3, 6 or 12.
fn missing_values(draft: &Draft<'_, '_>) -> usize {
    match draft.word {
        Keyword::IoPath
        | Keyword::Port
        | Keyword::Interconnect
        | Keyword::Device
        | Keyword::NetDelay => {}
        _ => return 0,
    }
    let retains = draft.values.iter().filter(|value| is_retain(value)).count();
    match draft.values.len().saturating_sub(retains) {
        4 => 2,
        5 => 1,
        count if 7 <= count && count < 12 => 12usize.saturating_sub(count),
        _ => 0,
    }
}

fn fill(alloc: Global, draft: &mut Draft<'_, '_>, notes: &mut Vec<Note>) -> Result<(), NoMemory> {
    let missing = missing_values(draft);
    if missing == 0 {
        return Ok(());
    }
    draft.empty_values = missing;
    let mut buffer = Buffer::new();
    let count = buffer.format(missing as u64).as_bytes();
    add_note(
        alloc,
        notes,
        Rule::List,
        &[b"filled up with values without a number: ", count],
    )
}

// The edge of which a change by its two values is one.
fn whole_edge(edge: Option<Keyword>) -> Option<Keyword> {
    match edge {
        Some(Keyword::Edge01 | Keyword::Edge0z | Keyword::EdgeZ1) => Some(Keyword::Posedge),
        Some(Keyword::Edge10 | Keyword::Edge1z | Keyword::EdgeZ0) => Some(Keyword::Negedge),
        _ => None,
    }
}

fn widen_edges(
    alloc: Global,
    draft: &mut Draft<'_, '_>,
    notes: &mut Vec<Note>,
) -> Result<(), NoMemory> {
    for term in draft.terms.iter_mut() {
        if let (Some(edge), Some(whole)) = (term.edge, whole_edge(term.edge)) {
            add_note(
                alloc,
                notes,
                Rule::Edge,
                &[
                    edge.spelling().as_bytes(),
                    b" is ",
                    whole.spelling().as_bytes(),
                ],
            )?;
            term.edge = Some(whole);
        }
    }
    Ok(())
}

/// Notes that zeros in front of exponents go, if there are any.
pub fn note_exponent(
    alloc: Global,
    group: &[Token<'_>],
    notes: &mut Vec<Note>,
) -> Result<(), NoMemory> {
    if has_long_exponent(group) {
        add_note(
            alloc,
            notes,
            Rule::Exponent,
            &[b"zeros in front of an exponent go"],
        )?;
    }
    Ok(())
}

// Whether an entry leads from one bus to another: then its cell says which bits lead to which.
fn is_crossed(draft: &Draft<'_, '_>) -> bool {
    draft.terms.len() == 2 && draft.terms.iter().all(|term| is_bus(term.port))
}

// Leaves out the entries of bits that have no place, where others have one.
fn leave_crossed(drafts: &mut [Draft<'_, '_>], settled: &[Settled]) {
    if !settled.iter().any(|one| one.found) {
        return;
    }
    for (draft, one) in drafts.iter_mut().zip(settled) {
        draft.is_gone = !one.found;
    }
}

/// What is written in the place of an entry, if it is one that is known. Takes memory.
pub fn work_of<'t, 'a>(
    alloc: Global,
    scope: &Scope<'_, '_, '_>,
    group: &'t [Token<'a>],
) -> Result<Option<Work<'t, 'a>>, NoMemory> {
    let Some(mut draft) = read_draft(alloc, group)? else {
        return Ok(None);
    };
    let mut notes = Vec::new(alloc);
    note_exponent(alloc, group, &mut notes)?;
    fill(alloc, &mut draft, &mut notes)?;
    widen_edges(alloc, &mut draft, &mut notes)?;
    let crossed = is_crossed(&draft);
    let drafts = unstamped(alloc, draft, &mut notes)?;
    if drafts.is_empty() {
        return Ok(None);
    }
    let drafts = bit_by_bit(alloc, drafts, &mut notes)?;
    let mut drafts = limit_by_limit(alloc, scope, drafts, &mut notes)?;
    let mut settled = Vec::new(alloc);
    for draft in drafts.iter_mut() {
        settled.push(settle(alloc, scope, draft, &mut notes)?)?;
    }
    if crossed {
        leave_crossed(&mut drafts, &settled);
    }
    Ok(Some(Work {
        group,
        drafts,
        settled,
        notes,
    }))
}
