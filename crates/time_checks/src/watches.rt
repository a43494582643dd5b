// Where timing checks see their events.
ghost use Rattle.std.specs.Prelude.{◌≡◌, ◌<◌, IfOk, map};
ghost use Rattle.time_checks.specs.AdjustedSeen.{adjusted_seen, all_seen};
ghost use Rattle.time_checks.specs.Watching.{back_set, datum_net, datum_set, is_datum_free, is_free, is_taken, watch_by};

use crate::adjusted::AdjustedCheck;
use crate::change_sets::ChangeSet;
use sg_circuit::{CheckKind, Event, NetId};
use sg_logic::Edge;
use sg_text::NoMemory;
use std::alloc::Global;

/// What of its nets a check looks at: their changes that may be its events, and, where its kind asks for them, the opposites of its
/// reference events. It lies close to those of other checks, since it is looked at whenever one of the nets changed.
#[derive(Clone, Copy)]
pub struct Watch {
    pub refer: NetId,
    /// The net of the data event, where there is one.
    pub datum: NetId,
    pub refer_changes: ChangeSet,
    pub datum_changes: ChangeSet,
    pub back_changes: ChangeSet,
    /// Whether the events have no conditions.
    pub is_free: bool,
}

impl Watch {
    /// Whether the change of a number at a net is one that the check looks at.
    pub fn takes(&self, net: NetId, change: u8) -> bool
        requires { change < 8 }
        ensures { result ≡ is_taken self.now net change }
    {
        self.refer == net
            && (self.refer_changes.contains(change) || self.back_changes.contains(change))
            || self.datum == net && self.datum_changes.contains(change)
    }
}

// The net of the data event; that of the reference where there is none.
fn net_of_datum(check: &AdjustedCheck<'_>) -> NetId
    ensures { result ≡ datum_net (adjusted_seen check.now) }
{
    match check.timing.datum {
        Some(_) => check.datum,
        None => check.refer,
    }
}

fn datum_changes(datum: &Option<Event>) -> ChangeSet
    ensures { result ≡ datum_set datum.now }
{
    match datum {
        Some(event) => ChangeSet::of_edge(event.edge),
        None => ChangeSet::none(),
    }
}

fn back_changes(kind: CheckKind, edge: Option<Edge>) -> ChangeSet
    ensures { result ≡ back_set kind edge }
{
    match kind {
        CheckKind::Width => ChangeSet::against_edge(edge),
        _ => ChangeSet::none(),
    }
}

fn is_free_of_conditions(datum: &Option<Event>) -> bool
    ensures { result ≡ is_datum_free datum.now }
{
    match datum {
        Some(event) => event.condition.is_none(),
        None => true,
    }
}

fn has_no_condition(check: &AdjustedCheck<'_>) -> bool
    ensures { result ≡ is_free (adjusted_seen check.now) }
{
    check.timing.refer.condition.is_none() && is_free_of_conditions(&check.timing.datum)
}

fn watch_of(check: &AdjustedCheck<'_>) -> Watch
    ensures { result ≡ watch_by (adjusted_seen check.now) }
{
    let timing = check.timing;
    Watch {
        refer: check.refer,
        datum: net_of_datum(check),
        refer_changes: ChangeSet::of_edge(timing.refer.edge),
        datum_changes: datum_changes(&timing.datum),
        back_changes: back_changes(timing.kind, timing.refer.edge),
        is_free: has_no_condition(check),
    }
}

/// What each check looks at. It takes time and memory in proportion to them.
pub fn watches_of(alloc: Global, checks: &[AdjustedCheck<'_>]) -> Result<Vec<Watch>, NoMemory>
    ensures { IfOk result (λ watches. watches.items ≡ map (λ c. watch_by c) (all_seen checks.now)) }
{
    let mut watches = Vec::with_capacity(alloc, checks.len())?;
    for check in checks {
        watches.push(watch_of(check))?;
    }
    Ok(watches)
}
