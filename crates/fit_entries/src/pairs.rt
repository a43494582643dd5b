// Entries of both edges for a check that has none.
use crate::entries::Work;
use crate::notes::{Note, add_note};
use fit_changes::Rule;
use fit_delays::{
    Corners, Draft, corners_of, is_value, larger_of, push_corners, push_front, smaller_of,
};
use indexmap::IndexMap;
use sdf_lex::{Lexeme, Token};
use sdf_tree::Keyword;
use sg_text::NoMemory;
use std::alloc::Global;

// Where the first entry of a check stands, and which edge went.
#[derive(Clone, Copy)]
struct First {
    work: usize,
    draft: usize,
    edge: Keyword,
}

fn count_of(tokens: &[Token<'_>], lexeme: Lexeme<'_>) -> usize {
    tokens.iter().filter(|token| token.lexeme == lexeme).count()
}

// Whether a limit is of numbers alone: one, or up to three with two colons between.
fn is_plain(limit: &[Token<'_>]) -> bool {
    let colons = count_of(limit, Lexeme::Colon);
    is_value(limit) && count_of(limit, Lexeme::Left) == 1 && (colons == 0 || colons == 2)
}

fn limits_of<'a>(alloc: Global, draft: &Draft<'_, 'a>) -> Result<Vec<Corners<'a>>, NoMemory> {
    if let Some(limits) = &draft.limits {
        return Ok(Vec::from_slice(alloc, limits)?);
    }
    let mut list = Vec::new(alloc);
    for value in &draft.values {
        list.push(corners_of(value))?;
    }
    Ok(list)
}

fn text_of(alloc: Global, limits: &[Corners<'_>]) -> Result<Vec<u8>, NoMemory> {
    let mut text = Vec::new(alloc);
    for limit in limits {
        push_corners(&mut text, *limit)?;
    }
    Ok(text)
}

fn is_same(alloc: Global, one: &[Corners<'_>], other: &[Corners<'_>]) -> Result<bool, NoMemory> {
    Ok(text_of(alloc, one)? == text_of(alloc, other)?)
}

// The stricter of each limit: the larger, but of a skew the smaller, which is the most that is allowed.
fn stricter<'a>(
    alloc: Global,
    word: Keyword,
    one: &[Corners<'a>],
    other: &[Corners<'a>],
) -> Result<Vec<Corners<'a>>, NoMemory> {
    let mut list = Vec::new(alloc);
    for (first, second) in one.iter().zip(other) {
        list.push(match word {
            Keyword::Skew => smaller_of(*first, *second),
            _ => larger_of(*first, *second),
        })?;
    }
    Ok(list)
}

// Gives the first entry the stricter limits of both, and answers whether the second may go.
fn merge<'a>(
    alloc: Global,
    works: &mut [Work<'_, 'a>],
    first: First,
    limits: &[Corners<'a>],
) -> Result<bool, NoMemory> {
    let Some(work) = works.get_mut(first.work) else {
        return Ok(false);
    };
    let Some(draft) = work.drafts.get_mut(first.draft) else {
        return Ok(false);
    };
    let own = limits_of(alloc, draft)?;
    if own.len() != limits.len() || is_same(alloc, &own, limits)? {
        return Ok(false);
    }
    draft.limits = Some(stricter(alloc, draft.word, &own, limits)?);
    Ok(true)
}

fn key_of(alloc: Global, draft: &Draft<'_, '_>) -> Result<Vec<u8>, NoMemory> {
    let mut key = Vec::new(alloc);
    push_front(&mut key, draft)?;
    Ok(key)
}

// The entry at a place, if an edge of it went: its key, its edge and its limits.
fn edged<'a>(
    alloc: Global,
    work: &Work<'_, 'a>,
    place: usize,
) -> Result<Option<(Vec<u8>, Keyword, Vec<Corners<'a>>)>, NoMemory> {
    match (work.drafts.get(place), work.settled.get(place)) {
        (Some(draft), Some(settled)) => match settled.edge {
            Some(edge) if draft.values.iter().all(|limit| is_plain(limit)) => {
                Ok(Some((key_of(alloc, draft)?, edge, limits_of(alloc, draft)?)))
            }
            _ => Ok(None),
        },
        _ => Ok(None),
    }
}

fn note_gone(alloc: Global, notes: &mut Vec<Note>) -> Result<(), NoMemory> {
    notes.retain(|one| one.rule != Rule::Edge);
    add_note(
        alloc,
        notes,
        Rule::Edge,
        &[
            b"the stricter limits of both edges stand in the entry of the other, since the check has no edge",
        ],
    )
}

// Leaves out the entry at a place.
fn leave_out(alloc: Global, work: &mut Work<'_, '_>, place: usize) -> Result<(), NoMemory> {
    if let Some(draft) = work.drafts.get_mut(place) {
        draft.is_gone = true;
    }
    note_gone(alloc, &mut work.notes)
}

fn join_one<'t, 'a>(
    alloc: Global,
    works: &mut [Work<'t, 'a>],
    first: &mut IndexMap<Vec<u8>, First>,
    at: First,
) -> Result<(), NoMemory> {
    let found = match works.get(at.work) {
        Some(work) => edged(alloc, work, at.draft)?,
        None => None,
    };
    let Some((key, edge, limits)) = found else {
        return Ok(());
    };
    let Some(other) = first.get(&key).copied() else {
        first.insert(
            key,
            First {
                work: at.work,
                draft: at.draft,
                edge,
            },
        )?;
        return Ok(());
    };
    if other.edge != edge && merge(alloc, works, other, &limits)? {
        if let Some(work) = works.get_mut(at.work) {
            leave_out(alloc, work, at.draft)?;
        }
    }
    Ok(())
}

/// Joins entries of both edges for a check that has none into one, with the stricter of each limit, where they differ. Takes memory.
pub fn join_pairs(alloc: Global, works: &mut [Work<'_, '_>]) -> Result<(), NoMemory> {
    let mut first: IndexMap<Vec<u8>, First> = IndexMap::new(alloc);
    for work in 0..works.len() {
        let count = match works.get(work) {
            Some(one) => one.drafts.len(),
            None => 0,
        };
        for draft in 0..count {
            let at = First {
                work,
                draft,
                edge: Keyword::Posedge,
            };
            join_one(alloc, works, &mut first, at)?;
        }
    }
    Ok(())
}
