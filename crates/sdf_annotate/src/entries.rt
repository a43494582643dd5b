// The entries of a file, one after another.
ghost use Rattle.std.specs.Prelude.{[], ◌∷◌, IfErr, OnOk, map};
ghost use Rattle.sdf_meaning.specs.MeantSeen.{view_sdf};
ghost use Rattle.annotation_finder.specs.Finding.{given_seen};
ghost use Rattle.annotation_places.specs.Places.{ArePlaces};
ghost use Rattle.sdf_annotate.specs.Progress.{AreSized, CameTo, StoppedAt};
ghost use Rattle.sdf_annotate.specs.Search.{IsReady, IsReadyFor};
ghost use Rattle.sdf_annotate.specs.Seen.{AreCounted, circuit_of, given_of, given_of_all};

use crate::limits::apply_to_checks;
use crate::notes::note;
use crate::search::Search;
use crate::tasks::Task;
use crate::timings::apply_to_spots;
use crate::unmatched::AnnotError;
use crate::values::NewValues;
use sdf_tree::{Cell, Entry};
use std::alloc::Global;

// One entry of a cell.
fn annotate_entry(
    alloc: Global,
    task: &Task<'_, '_, '_>,
    cell: &Cell<'_>,
    entry: &Entry<'_>,
    search: &mut Search,
    values: &mut NewValues,
) -> Result<(), AnnotError>
    requires places { ArePlaces task.now.places.now }
    requires signals { AreCounted task.now }
    requires ready { IsReadyFor task.now cell.now search.old }
    requires sized { AreSized (circuit_of task.now) values.old }
    ensures ready { OnOk result (IsReadyFor task.now cell.now search.new) }
    ensures came { OnOk result (CameTo (circuit_of task.now) (view_sdf task.now.sdf.now) task.now.corner (given_seen cell.now entry.now ∷ []) values.old values.new) }
    ensures stopped { IfErr result (StoppedAt (circuit_of task.now) (view_sdf task.now.sdf.now) task.now.corner (given_seen cell.now entry.now ∷ []) values.old) }
{
    let found = search.find(alloc, task, cell, entry)?;
    apply_to_spots(alloc, task, entry, &found.spots, &mut values.timings)?;
    apply_to_checks(task, entry, &found.checks, &mut values.limits)?;
    note(alloc, entry, !found.is_empty(), &mut values.unmatched)?;
    Ok(())
}

/// The entries of a cell.
pub fn annotate_entries(
    alloc: Global,
    task: &Task<'_, '_, '_>,
    cell: &Cell<'_>,
    entries: &[Entry<'_>],
    search: &mut Search,
    values: &mut NewValues,
) -> Result<(), AnnotError>
    requires places { ArePlaces task.now.places.now }
    requires signals { AreCounted task.now }
    requires ready { IsReadyFor task.now cell.now search.old }
    requires sized { AreSized (circuit_of task.now) values.old }
    ensures ready { OnOk result (IsReadyFor task.now cell.now search.new) }
    ensures came { OnOk result (CameTo (circuit_of task.now) (view_sdf task.now.sdf.now) task.now.corner (map (λ e. given_seen cell.now e) entries.now) values.old values.new) }
    ensures stopped { IfErr result (StoppedAt (circuit_of task.now) (view_sdf task.now.sdf.now) task.now.corner (map (λ e. given_seen cell.now e) entries.now) values.old) }
{
    for entry in entries {
        annotate_entry(alloc, task, cell, entry, search, values)?;
    }
    Ok(())
}

// A cell.
fn annotate_cell(
    alloc: Global,
    task: &Task<'_, '_, '_>,
    cell: &Cell<'_>,
    search: &mut Search,
    values: &mut NewValues,
) -> Result<(), AnnotError>
    requires places { ArePlaces task.now.places.now }
    requires signals { AreCounted task.now }
    requires ready { IsReady task.now search.old }
    requires sized { AreSized (circuit_of task.now) values.old }
    ensures ready { OnOk result (IsReady task.now search.new) }
    ensures came { OnOk result (CameTo (circuit_of task.now) (view_sdf task.now.sdf.now) task.now.corner (given_of cell.now) values.old values.new) }
    ensures stopped { IfErr result (StoppedAt (circuit_of task.now) (view_sdf task.now.sdf.now) task.now.corner (given_of cell.now) values.old) }
{
    search.enter(alloc, task, cell)?;
    annotate_entries(alloc, task, cell, &cell.entries, search, values)
}

/// The entries of cells, applied to the values of all places.
pub fn annotate_cells(
    alloc: Global,
    task: &Task<'_, '_, '_>,
    cells: &[Cell<'_>],
    search: &mut Search,
    values: &mut NewValues,
) -> Result<(), AnnotError>
    requires places { ArePlaces task.now.places.now }
    requires signals { AreCounted task.now }
    requires ready { IsReady task.now search.old }
    requires sized { AreSized (circuit_of task.now) values.old }
    ensures came { OnOk result (CameTo (circuit_of task.now) (view_sdf task.now.sdf.now) task.now.corner (given_of_all cells.now) values.old values.new) }
    ensures stopped { IfErr result (StoppedAt (circuit_of task.now) (view_sdf task.now.sdf.now) task.now.corner (given_of_all cells.now) values.old) }
{
    for cell in cells {
        annotate_cell(alloc, task, cell, search, values)?;
    }
    Ok(())
}
