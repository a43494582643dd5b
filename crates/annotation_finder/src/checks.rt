// Which timing checks are what an entry asks for.
ghost use Rattle.std.specs.Prelude.{◌≡◌, ◌<◌, ◌&&◌, IfSome, length};
ghost use Rattle.sdf_meaning.specs.MeantSeen.{view_cell_check};
ghost use Rattle.sg_circuit.specs.ChecksSeen.{AreWritten, text_at, written_seen};
ghost use Rattle.sg_circuit.specs.Seen.{circuit_seen};
ghost use Rattle.annotation_model.specs.Matching as matching;
ghost use Rattle.annotation_model.specs.Spots.{is_given};
ghost use Rattle.annotation_places.specs.Places.{ArePlaces};
ghost use Rattle.annotation_scopes.specs.Cells.{AreMarked};
ghost use Rattle.annotation_finder.specs.Checks.{check_passes, datum_fits, events_fit, terminal_seen, terminals_seen};
ghost use Rattle.std.specs.Option.{option_map};

use crate::terminals::{NamedTerminal, Terminals};
use annotation_index::Test;
use annotation_places::Places;
use annotation_scopes::CellScopes;
use annotation_values::limits_for;
use sdf_tree::CellCheck;
use sg_circuit::{CheckConditions, CheckKind, CheckTiming, Event};

// Whether a terminal that is asked for, if one is, is that of a data event.
fn fits_datum(
    places: &Places<'_>,
    terminal: &Option<NamedTerminal>,
    scope: u32,
    event: &Option<Event>,
    written: Option<usize>,
) -> bool
    requires places { ArePlaces places.now }
    requires scope { scope < length places.now.parts.now.scopes.items }
    requires written { IfSome written (λ place. place < length places.now.parts.now.conditions.items) }
    ensures { result ≡ datum_fits (circuit_seen places.now.parts.now) scope (option_map terminal_seen terminal.now) event.now (text_at places.now.parts.now.conditions.items written) }
{
    match (terminal, event) {
        (None, _) => true,
        (Some(_), None) => false,
        (Some(terminal), Some(event)) => terminal.fits(places, scope, event, written),
    }
}

// Whether the terminals of a check of a scope are those that are asked for.
fn fit_events(
    places: &Places<'_>,
    terminals: &Terminals,
    scope: u32,
    timing: &CheckTiming,
    written: &CheckConditions,
) -> bool
    requires places { ArePlaces places.now }
    requires scope { scope < length places.now.parts.now.scopes.items }
    requires written { AreWritten (length places.now.parts.now.conditions.items) written.now }
    ensures { result ≡ events_fit (circuit_seen places.now.parts.now) scope (terminals_seen terminals.now) timing.now (written_seen places.now.parts.now.conditions.items written.now) }
{
    terminals
        .refer
        .fits(places, scope, &timing.refer, written.refer)
        && fits_datum(
            places,
            &terminals.datum,
            scope,
            &timing.datum,
            written.datum,
        )
}

// Whether an entry's check gives a limit to a check of a kind.
fn gives_limit(check: &CellCheck<'_>, kind: CheckKind) -> bool
    ensures { result ≡ is_given (matching.limits_for (view_cell_check check.now) kind) }
{
    let (first, second) = limits_for(check, kind);
    first.is_some() || second.is_some()
}

// Whether a check of a scope, by what it looks for and how its conditions are spelled, is what is asked for.
fn fits_check(
    places: &Places<'_>,
    check: &CellCheck<'_>,
    terminals: &Terminals,
    scope: u32,
    timing: &CheckTiming,
    written: &CheckConditions,
) -> bool
    requires places { ArePlaces places.now }
    requires scope { scope < length places.now.parts.now.scopes.items }
    requires written { AreWritten (length places.now.parts.now.conditions.items) written.now }
    ensures { result ≡ (events_fit (circuit_seen places.now.parts.now) scope (terminals_seen terminals.now) timing.now (written_seen places.now.parts.now.conditions.items written.now) && is_given (matching.limits_for (view_cell_check check.now) timing.now.kind)) }
{
    fit_events(places, terminals, scope, timing, written) && gives_limit(check, timing.kind)
}

/// Whether a timing check is what an entry's check asks for in a cell.
#[derive(Drop)]
pub struct CheckTest<'t, 'a, 's> {
    pub places: &'t Places<'a>,
    pub cell: &'t CellScopes,
    pub check: &'t CellCheck<'s>,
    pub terminals: &'t Terminals,
}

impl Test for CheckTest<'_, '_, '_> {
    ghost test = { λ t place. check_passes (circuit_seen t.places.now.parts.now) t.cell.now.marks.items (view_cell_check t.check.now) (terminals_seen t.terminals.now) place };

    ghost ready = { λ t. ArePlaces t.places.now × AreMarked (length t.places.now.parts.now.scopes.items) t.cell.now };

    ghost count = { λ t. length t.places.now.parts.now.checks.items };

    fn passes(&self, place: u32) -> bool {
        let parts = self.places.parts;
        let check = &parts.checks[place as usize];
        let timing = &parts.check_timings[place as usize];
        let written = &parts.check_conditions[place as usize];
        if !self.cell.marks[check.scope as usize] {
            return false;
        }
        fits_check(
            self.places,
            self.check,
            self.terminals,
            check.scope,
            timing,
            written,
        )
    }
}
