// Entries and their places in the netlist.
use crate::notes::{Note, add_note};
use fit_changes::Rule;
use fit_delays::{Condition, Draft, Port, Term, When, push_word};
use fit_places::{
    CellCheck, CellEvent, CheckFit, Module, Netlist, PathFit, PathWhen, Spot, check_fit,
    is_data_first, is_edge, is_interconnect, is_port, path_fit, reaches,
};
use sdf_tree::Keyword;
use sg_text::NoMemory;
use std::alloc::Global;

/// The instances of a cell.
#[derive(Drop)]
pub struct Scope<'n, 's, 'v> {
    pub netlist: &'n Netlist<'s, 'v>,
    pub divider: u8,
    /// The instance, or one of the cell's type; None where there is none.
    pub spot: Option<Spot>,
}

/// What came of an entry: whether it has a place, and an edge that went, which its check hasn't.
#[derive(Clone, Copy)]
pub struct Settled {
    pub found: bool,
    pub edge: Option<Keyword>,
}

const NOWHERE: Settled = Settled {
    found: false,
    edge: None,
};

const FOUND: Settled = Settled {
    found: true,
    edge: None,
};

fn is_found(found: bool) -> Settled {
    Settled { found, edge: None }
}

// The condition of a path of the module.
fn own_condition<'m>(module: &'m Module<'_, '_>, place: usize) -> Option<&'m Condition> {
    match &module.paths.get(place)?.when {
        PathWhen::If(condition) => Some(condition),
        _ => None,
    }
}

// A CONDELSE is for what was an `ifnone`; a module that never had one says otherwise.
fn other_rule(module: &Module<'_, '_>) -> Rule {
    if module.is_marked {
        Rule::IfnoneEdge
    } else {
        Rule::Condition
    }
}

fn note_condition(
    alloc: Global,
    module: &Module<'_, '_>,
    draft: &Draft<'_, '_>,
    own: &Condition,
    notes: &mut Vec<Note>,
) -> Result<(), NoMemory> {
    match &draft.when {
        When::If(condition) => add_note(
            alloc,
            notes,
            Rule::Condition,
            &[&condition.spelled, b" is spelled ", &own.spelled],
        ),
        _ => add_note(
            alloc,
            notes,
            other_rule(module),
            &[b"CONDELSE is COND ", &own.spelled],
        ),
    }
}

fn settle_path(
    alloc: Global,
    module: &Module<'_, '_>,
    draft: &mut Draft<'_, '_>,
    notes: &mut Vec<Note>,
) -> Result<Settled, NoMemory> {
    match path_fit(alloc, module, draft)? {
        PathFit::Nowhere => Ok(NOWHERE),
        PathFit::AsItStands => Ok(FOUND),
        PathFit::With(place) => {
            let Some(own) = own_condition(module, place) else {
                return Ok(NOWHERE);
            };
            note_condition(alloc, module, draft, own, notes)?;
            draft.when = When::If(own.copy(alloc)?);
            Ok(FOUND)
        }
        PathFit::Bare => {
            add_note(
                alloc,
                notes,
                other_rule(module),
                &[b"CONDELSE goes, since the path has no condition"],
            )?;
            draft.when = When::Always;
            Ok(FOUND)
        }
    }
}

// ---- timing checks

fn note_edge(alloc: Global, term: &Term<'_>, notes: &mut Vec<Note>) -> Result<(), NoMemory> {
    let mut word = Vec::new(alloc);
    if let Some(edge) = term.edge {
        push_word(&mut word, edge)?;
    }
    add_note(
        alloc,
        notes,
        Rule::Edge,
        &[
            &word,
            b" of ",
            term.port.path,
            b" goes, which the check hasn't",
        ],
    )
}

// Takes an edge away that the event hasn't.
fn fit_edge(
    alloc: Global,
    term: &mut Term<'_>,
    event: &CellEvent<'_>,
    notes: &mut Vec<Note>,
) -> Result<Option<Keyword>, NoMemory> {
    if is_edge(term.edge, event.edge) {
        return Ok(None);
    }
    note_edge(alloc, term, notes)?;
    Ok(term.edge.take())
}

fn spelled(condition: &Option<Condition>) -> &[u8] {
    match condition {
        Some(condition) => &condition.spelled,
        None => b"none",
    }
}

fn own_copy(alloc: Global, event: &CellEvent<'_>) -> Result<Option<Condition>, NoMemory> {
    Ok(match &event.condition {
        Some(condition) => Some(condition.copy(alloc)?),
        None => None,
    })
}

// Gives a terminal the condition of its event.
fn fit_condition(
    alloc: Global,
    term: &mut Term<'_>,
    event: &CellEvent<'_>,
    notes: &mut Vec<Note>,
) -> Result<(), NoMemory> {
    if spelled(&term.condition) == spelled(&event.condition) {
        return Ok(());
    }
    let mut what = Vec::from_slice(alloc, b"of ")?;
    what.extend_from_slice(term.port.path)?;
    what.extend_from_slice(b": ")?;
    what.extend_from_slice(spelled(&term.condition))?;
    what.extend_from_slice(b" is ")?;
    what.extend_from_slice(spelled(&event.condition))?;
    add_note(alloc, notes, Rule::Condition, &[&what])?;
    term.condition = own_copy(alloc, event)?;
    Ok(())
}

// Whether a terminal's condition is on none that means the same in the check.
fn is_moved(term: Option<&Term<'_>>, event: Option<&CellEvent<'_>>) -> bool {
    let (Some(term), Some(event)) = (term, event) else {
        return false;
    };
    match (&term.condition, &event.condition) {
        (Some(condition), Some(own)) => condition.meant != own.meant,
        (Some(_), None) => true,
        (None, _) => false,
    }
}

// The events of a check in the order of an entry's terminals.
fn events<'m, 'a>(
    word: Keyword,
    check: &'m CellCheck<'a>,
) -> (&'m CellEvent<'a>, Option<&'m CellEvent<'a>>) {
    match &check.datum {
        Some(datum) if is_data_first(word) => (datum, Some(&check.refer)),
        datum => (&check.refer, datum.as_ref()),
    }
}

fn fit_term(
    alloc: Global,
    term: &mut Term<'_>,
    event: &CellEvent<'_>,
    moved: bool,
    notes: &mut Vec<Note>,
) -> Result<Option<Keyword>, NoMemory> {
    let edge = fit_edge(alloc, term, event, notes)?;
    if moved || term.condition.is_some() {
        fit_condition(alloc, term, event, notes)?;
    }
    Ok(edge)
}

// Makes an entry one for a check.
fn fit_check(
    alloc: Global,
    draft: &mut Draft<'_, '_>,
    check: &CellCheck<'_>,
    notes: &mut Vec<Note>,
) -> Result<Settled, NoMemory> {
    let (first, second) = events(draft.word, check);
    let moved = is_moved(draft.terms.get(0), Some(first)) || is_moved(draft.terms.get(1), second);
    let mut edge = None;
    for (at, term) in draft.terms.iter_mut().enumerate() {
        let event = if at == 0 { Some(first) } else { second };
        if let Some(event) = event {
            let gone = fit_term(alloc, term, event, moved, notes)?;
            edge = edge.or(gone);
        }
    }
    Ok(Settled { found: true, edge })
}

fn settle_check(
    alloc: Global,
    module: &Module<'_, '_>,
    draft: &mut Draft<'_, '_>,
    notes: &mut Vec<Note>,
) -> Result<Settled, NoMemory> {
    match check_fit(alloc, module, draft)? {
        CheckFit::Nowhere => Ok(NOWHERE),
        CheckFit::AsItStands => Ok(FOUND),
        CheckFit::Near(place) => match module.checks.get(place) {
            Some(check) => fit_check(alloc, draft, check, notes),
            None => Ok(NOWHERE),
        },
    }
}

// ---- all

fn port_at<'a>(draft: &Draft<'_, 'a>, place: usize) -> Option<Port<'a>> {
    let term = draft.terms.get(place)?;
    Some(term.port)
}

fn is_net_found(
    alloc: Global,
    scope: &Scope<'_, '_, '_>,
    spot: &Spot,
    draft: &Draft<'_, '_>,
) -> Result<bool, NoMemory> {
    match (draft.word, port_at(draft, 0), port_at(draft, 1)) {
        (Keyword::Port, Some(port), _) => {
            is_port(alloc, scope.netlist, scope.divider, spot, port)
        }
        (Keyword::Interconnect, Some(source), Some(sink)) => {
            is_interconnect(alloc, scope.netlist, scope.divider, spot, source, sink)
        }
        _ => Ok(false),
    }
}

/// Finds the place of an entry among the instances of its cell, and makes it one for it where another spelling is meant. Takes memory.
pub fn settle(
    alloc: Global,
    scope: &Scope<'_, '_, '_>,
    draft: &mut Draft<'_, '_>,
    notes: &mut Vec<Note>,
) -> Result<Settled, NoMemory> {
    let Some(spot) = &scope.spot else {
        return Ok(NOWHERE);
    };
    let Some(module) = scope.netlist.module(spot.module) else {
        return Ok(NOWHERE);
    };
    match draft.word {
        Keyword::IoPath => settle_path(alloc, module, draft, notes),
        Keyword::PathPulse | Keyword::PathPulsePercent if draft.terms.len() == 2 => {
            settle_path(alloc, module, draft, notes)
        }
        Keyword::Device | Keyword::PathPulse | Keyword::PathPulsePercent => {
            Ok(is_found(reaches(alloc, module, port_at(draft, 0))?))
        }
        Keyword::Port | Keyword::Interconnect => {
            Ok(is_found(is_net_found(alloc, scope, spot, draft)?))
        }
        Keyword::NetDelay => Ok(NOWHERE),
        _ => settle_check(alloc, module, draft, notes),
    }
}
