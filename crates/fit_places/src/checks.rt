// Timing checks for which entries are (IEEE 1497-2001, timing check entries).
use crate::bits::common_bit;
use crate::events::{CellCheck, CellEdge, CellEvent, key_of};
use crate::modules::Module;
use crate::paths::is_edge;
use fit_delays::{Condition, Draft, Term};
use sdf_lex::called;
use sdf_tree::Keyword;
use sg_text::NoMemory;
use std::alloc::Global;
use vl_tree::{CheckName, OneLimitCheck, TwoLimitCheck};

/// How an entry fits the timing checks of a module.
#[derive(Clone, Copy)]
pub enum CheckFit {
    Nowhere,
    AsItStands,
    /// The check at this place of the module is meant, where its conditions are written as it spells them and edges that it hasn't go.
    Near(usize),
}

/// Whether an entry has the data before the reference.
pub fn is_data_first(word: Keyword) -> bool {
    match word {
        Keyword::Setup | Keyword::Hold | Keyword::SetupHold => true,
        _ => false,
    }
}

// Whether an entry gives limits to a check.
fn gives(word: Keyword, name: CheckName) -> bool {
    match name {
        CheckName::OneLimit(OneLimitCheck::Setup) => {
            word == Keyword::Setup || word == Keyword::SetupHold
        }
        CheckName::OneLimit(OneLimitCheck::Hold) => {
            word == Keyword::Hold || word == Keyword::SetupHold
        }
        CheckName::OneLimit(OneLimitCheck::Recovery) => {
            word == Keyword::Recovery || word == Keyword::RecRem
        }
        CheckName::OneLimit(OneLimitCheck::Removal) => {
            word == Keyword::Removal || word == Keyword::RecRem
        }
        CheckName::OneLimit(OneLimitCheck::Skew) => word == Keyword::Skew,
        CheckName::TwoLimits(TwoLimitCheck::SetupHold) => is_data_first(word),
        CheckName::TwoLimits(TwoLimitCheck::RecRem) => {
            word == Keyword::Recovery || word == Keyword::Removal || word == Keyword::RecRem
        }
        CheckName::Width => word == Keyword::Width,
        CheckName::Period => word == Keyword::Period,
    }
}

// The terms of the reference event and of the data event.
fn ends<'d, 'a>(draft: &'d Draft<'_, 'a>) -> Option<(&'d Term<'a>, Option<&'d Term<'a>>)> {
    match draft.terms.as_slice() {
        [first] => Some((first, None)),
        [first, second] if is_data_first(draft.word) => Some((second, Some(first))),
        [first, second] => Some((first, Some(second))),
        _ => None,
    }
}

// How well a term's edge fits: 0 as it stands, 4 where it goes.
fn edge_cost(term: &Term<'_>, event: &CellEvent<'_>) -> Option<u32> {
    if is_edge(term.edge, event.edge) {
        Some(0)
    } else if event.edge == CellEdge::Any {
        Some(4)
    } else {
        None
    }
}

// How well its condition fits: 0 as it stands, 1 in another spelling.
fn condition_cost(term: &Term<'_>, event: &CellEvent<'_>) -> Option<u32> {
    match (&term.condition, &event.condition) {
        (None, _) => Some(0),
        (Some(one), Some(own)) if one.spelled == own.spelled => Some(0),
        (Some(one), Some(own)) if one.meant == own.meant => Some(1),
        _ => None,
    }
}

fn meaning(condition: &Option<Condition>) -> Option<&[u8]> {
    match condition {
        Some(condition) => Some(condition.meant.as_slice()),
        None => None,
    }
}

fn is_among(one: Option<&[u8]>, list: [Option<&[u8]>; 2]) -> bool {
    let [first, second] = list;
    one.is_none() || one == first || one == second
}

// Whether the terms have the only condition of the events, whichever has it.
fn have_same(terms: [Option<&[u8]>; 2], events: [Option<&[u8]>; 2]) -> bool {
    let [first, second] = terms;
    let [refer, datum] = events;
    (refer.is_none() || datum.is_none())
        && is_among(first, events)
        && is_among(second, events)
        && is_among(refer, terms)
        && is_among(datum, terms)
}

fn is_at(module: &Module<'_, '_>, term: &Term<'_>, event: &CellEvent<'_>) -> bool {
    common_bit(module, &event.term, term.port.bits).is_some()
}

fn sum(one: Option<u32>, other: Option<u32>) -> Option<u32> {
    Some(one?.saturating_add(other?))
}

// What it takes to make an entry fit a check; 0 where it does as it stands.
fn cost(module: &Module<'_, '_>, draft: &Draft<'_, '_>, check: &CellCheck<'_>) -> Option<u32> {
    let (refer, datum) = ends(draft)?;
    if !gives(draft.word, check.name) || !is_at(module, refer, &check.refer) {
        return None;
    }
    let edge = edge_cost(refer, &check.refer);
    let condition = condition_cost(refer, &check.refer);
    let (Some(term), Some(event)) = (datum, &check.datum) else {
        return sum(edge, condition);
    };
    if !is_at(module, term, event) {
        return None;
    }
    let edges = sum(edge, edge_cost(term, event))?;
    if let Some(conditions) = sum(condition, condition_cost(term, event)) {
        return Some(edges.saturating_add(conditions));
    }
    let terms = [meaning(&refer.condition), meaning(&term.condition)];
    let events = [meaning(&check.refer.condition), meaning(&event.condition)];
    if have_same(terms, events) {
        Some(edges.saturating_add(2))
    } else {
        None
    }
}

// The checks of a module between the nets of an entry.
fn key(alloc: Global, draft: &Draft<'_, '_>) -> Result<Option<Vec<u8>>, NoMemory> {
    let Some((refer, datum)) = ends(draft) else {
        return Ok(None);
    };
    let from = called(alloc, refer.port.path)?;
    let to = match datum {
        Some(term) => called(alloc, term.port.path)?,
        None => Vec::new(alloc),
    };
    Ok(Some(key_of(alloc, &from, &to)?))
}

/// How an entry fits the timing checks of a module. Takes memory.
pub fn check_fit(
    alloc: Global,
    module: &Module<'_, '_>,
    draft: &Draft<'_, '_>,
) -> Result<CheckFit, NoMemory> {
    let Some(key) = key(alloc, draft)? else {
        return Ok(CheckFit::Nowhere);
    };
    let mut least = u32::MAX;
    let mut found = CheckFit::Nowhere;
    for place in module.check_keys.get(&key) {
        if let Some(check) = module.checks.get(*place) {
            if let Some(cost) = cost(module, draft, check) {
                if cost == 0 {
                    return Ok(CheckFit::AsItStands);
                }
                if cost < least {
                    least = cost;
                    found = CheckFit::Near(*place);
                }
            }
        }
    }
    Ok(found)
}
