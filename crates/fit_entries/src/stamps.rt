// Conditions of a time stamp and of a time check, SCOND and CCOND (IEEE 1497-2001, SETUPHOLD and RECREM).
use crate::notes::{Note, add_note};
use fit_changes::Rule;
use fit_delays::{Condition, Draft, Term, When};
use sdf_lex::Token;
use sdf_tree::Keyword;
use sg_text::NoMemory;
use std::alloc::Global;

fn copy(alloc: Global, condition: &Option<Condition>) -> Result<Option<Condition>, NoMemory> {
    Ok(match condition {
        Some(condition) => Some(condition.copy(alloc)?),
        None => None,
    })
}

fn with_condition<'a>(
    alloc: Global,
    term: &Term<'a>,
    condition: &Option<Condition>,
) -> Result<Term<'a>, NoMemory> {
    Ok(Term {
        condition: copy(alloc, condition)?,
        edge: term.edge,
        port: term.port,
    })
}

// An entry of one limit, with conditions of its terminals.
fn half<'t, 'a>(
    alloc: Global,
    word: Keyword,
    draft: &Draft<'t, 'a>,
    first_condition: &Option<Condition>,
    second_condition: &Option<Condition>,
    place: usize,
) -> Result<Draft<'t, 'a>, NoMemory> {
    let mut made = Draft::new(alloc, word);
    if let [first, second] = draft.terms.as_slice() {
        made.terms
            .push(with_condition(alloc, first, first_condition)?)?;
        made.terms
            .push(with_condition(alloc, second, second_condition)?)?;
    }
    if let Some(value) = draft.values.get(place) {
        made.values.push(*value)?;
    }
    Ok(made)
}

// The words of an entry's two halves.
fn halves(word: Keyword) -> Option<(Keyword, Keyword)> {
    match word {
        Keyword::SetupHold => Some((Keyword::Setup, Keyword::Hold)),
        Keyword::RecRem => Some((Keyword::Recovery, Keyword::Removal)),
        _ => None,
    }
}

/// An entry for each limit of one that has two, with the conditions of its terminals. Takes memory.
pub fn in_halves<'t, 'a>(
    alloc: Global,
    draft: &Draft<'t, 'a>,
) -> Result<Option<(Draft<'t, 'a>, Draft<'t, 'a>)>, NoMemory> {
    let (Some((early, late)), [first, second]) = (halves(draft.word), draft.terms.as_slice()) else {
        return Ok(None);
    };
    if draft.values.len() != 2 {
        return Ok(None);
    }
    let one = half(alloc, early, draft, &first.condition, &second.condition, 0)?;
    let other = half(alloc, late, draft, &first.condition, &second.condition, 1)?;
    Ok(Some((one, other)))
}

fn is_same(one: &Option<Condition>, other: &Option<Condition>) -> bool {
    match (one, other) {
        (Some(one), Some(other)) => one.spelled == other.spelled,
        _ => false,
    }
}

// Whether an entry of two limits has such conditions, and none of a terminal.
fn is_stamped(draft: &Draft<'_, '_>) -> bool {
    (draft.stamp.is_some() || draft.check.is_some())
        && draft.terms.iter().all(|term| term.condition.is_none())
        && draft.values.len() == 2
        && halves(draft.word).is_some()
}

// Both conditions, which are the same, on both terminals.
fn on_both<'t, 'a>(
    alloc: Global,
    draft: &mut Draft<'t, 'a>,
    notes: &mut Vec<Note>,
) -> Result<(), NoMemory> {
    let stamp = draft.stamp.take();
    draft.check = None;
    for term in draft.terms.iter_mut() {
        term.condition = copy(alloc, &stamp)?;
    }
    add_note(
        alloc,
        notes,
        Rule::StampCondition,
        &[b"SCOND and CCOND are COND of both terminals"],
    )
}

/// The entries for one with a condition of its time stamp or of its time check: itself with COND of both terminals, where both are the same;
/// or one for each limit, whose first event is a time stamp and whose second is checked. None where such conditions can't
/// stand. Takes memory.
pub fn unstamped<'t, 'a>(
    alloc: Global,
    draft: Draft<'t, 'a>,
    notes: &mut Vec<Note>,
) -> Result<Vec<Draft<'t, 'a>>, NoMemory> {
    let mut draft = draft;
    let mut list = Vec::new(alloc);
    if !is_stamped(&draft) {
        if draft.stamp.is_none() && draft.check.is_none() {
            list.push(draft)?;
        }
        return Ok(list);
    }
    if is_same(&draft.stamp, &draft.check) {
        on_both(alloc, &mut draft, notes)?;
        list.push(draft)?;
        return Ok(list);
    }
    let Some((early, late)) = halves(draft.word) else {
        return Ok(list);
    };
    list.push(half(alloc, early, &draft, &draft.stamp, &draft.check, 0)?)?;
    list.push(half(alloc, late, &draft, &draft.check, &draft.stamp, 1)?)?;
    let what: &[u8] = match early {
        Keyword::Setup => b"SCOND and CCOND: SETUP and HOLD in the place of SETUPHOLD",
        _ => b"SCOND and CCOND: RECOVERY and REMOVAL in the place of RECREM",
    };
    add_note(alloc, notes, Rule::SplitCheck, &[what])?;
    Ok(list)
}
