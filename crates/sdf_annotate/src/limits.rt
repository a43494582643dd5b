// An entry applied to the timing checks that it is for.
ghost use Rattle.std.specs.Prelude.{◌≡◌, ◌<◌, [], All, IfErr, OnOk, false, length, true};
ghost use Rattle.sdf_meaning.specs.MeantSeen.{view_cell_check, view_kind, view_sdf};
ghost use Rattle.sdf_tree.specs.Meant.{a_check};
ghost use Rattle.annotation_model.specs.Listed.{written};
ghost use Rattle.annotation_model.specs.Passes.{meets_large};
ghost use Rattle.annotation_places.specs.Places.{ArePlaces};
ghost use Rattle.sdf_annotate.specs.Seen.{AreCounted, Told, check_with, circuit_of, is_check_large};

use crate::scales::grid_of;
use crate::tasks::Task;
use crate::unmatched::AnnotError;
use annotation_values::{Bounds, apply_check};
use sdf_tree::{CellCheck, Entry, EntryKind};
use sg_text::Place;

// An entry at a place, applied to one timing check.
fn apply_to_check(
    task: &Task<'_, '_, '_>,
    place: Place,
    check: &CellCheck<'_>,
    number: u32,
    limits: &mut [i64; 2],
) -> Result<(), AnnotError>
    requires places { ArePlaces task.now.places.now }
    requires signals { AreCounted task.now }
    requires number { number < length task.now.places.now.parts.now.checks.items }
    ensures fine { OnOk result (is_check_large (circuit_of task.now) (view_sdf task.now.sdf.now) task.now.corner (a_check (view_cell_check check.now)) number limits.old ≡ false) }
    ensures applied { OnOk result (limits.new ≡ check_with (circuit_of task.now) (view_sdf task.now.sdf.now) task.now.corner (a_check (view_cell_check check.now)) number limits.old) }
    ensures told { IfErr result (λ e. Told (is_check_large (circuit_of task.now) (view_sdf task.now.sdf.now) task.now.corner (a_check (view_cell_check check.now)) number limits.old ≡ true) place e) }
{
    let parts = task.places.parts;
    let scope = parts.checks[number as usize].scope;
    let grid = grid_of(task, scope);
    let kind = parts.check_timings[number as usize].kind;
    let bounds = Bounds::of(kind, task.signals[scope as usize]);
    let Ok(new) = apply_check(grid, check, kind, bounds, limits) else {
        return Err(AnnotError::TooLarge { place });
    };
    *limits = new;
    Ok(())
}

// An entry at a place, applied to the timing checks of these numbers.
fn apply_to_each(
    task: &Task<'_, '_, '_>,
    place: Place,
    check: &CellCheck<'_>,
    found: &[u32],
    limits: &mut [[i64; 2]],
) -> Result<(), AnnotError>
    requires places { ArePlaces task.now.places.now }
    requires signals { AreCounted task.now }
    requires limits_of_each { length limits.old ≡ length task.now.places.now.parts.now.checks.items }
    requires found { All (λ k. k < length limits.old) found.now }
    ensures fine { OnOk result (meets_large (is_check_large (circuit_of task.now) (view_sdf task.now.sdf.now) task.now.corner (a_check (view_cell_check check.now))) (check_with (circuit_of task.now) (view_sdf task.now.sdf.now) task.now.corner (a_check (view_cell_check check.now))) [] found.now limits.old ≡ false) }
    ensures written { OnOk result (limits.new ≡ written (check_with (circuit_of task.now) (view_sdf task.now.sdf.now) task.now.corner (a_check (view_cell_check check.now))) [] found.now limits.old) }
    ensures told { IfErr result (λ e. Told (meets_large (is_check_large (circuit_of task.now) (view_sdf task.now.sdf.now) task.now.corner (a_check (view_cell_check check.now))) (check_with (circuit_of task.now) (view_sdf task.now.sdf.now) task.now.corner (a_check (view_cell_check check.now))) [] found.now limits.old ≡ true) place e) }
{
    for number in found {
        apply_to_check(task, place, check, *number, &mut limits[*number as usize])?;
    }
    Ok(())
}

/// The limits of the timing checks of these numbers after an entry. One that isn't of a timing check leaves them as they are.
pub fn apply_to_checks(
    task: &Task<'_, '_, '_>,
    entry: &Entry<'_>,
    found: &[u32],
    limits: &mut [[i64; 2]],
) -> Result<(), AnnotError>
    requires places { ArePlaces task.now.places.now }
    requires signals { AreCounted task.now }
    requires limits_of_each { length limits.old ≡ length task.now.places.now.parts.now.checks.items }
    requires found { All (λ k. k < length limits.old) found.now }
    ensures fine { OnOk result (meets_large (is_check_large (circuit_of task.now) (view_sdf task.now.sdf.now) task.now.corner (view_kind entry.now.kind)) (check_with (circuit_of task.now) (view_sdf task.now.sdf.now) task.now.corner (view_kind entry.now.kind)) [] found.now limits.old ≡ false) }
    ensures written { OnOk result (limits.new ≡ written (check_with (circuit_of task.now) (view_sdf task.now.sdf.now) task.now.corner (view_kind entry.now.kind)) [] found.now limits.old) }
    ensures told { IfErr result (λ e. Told (meets_large (is_check_large (circuit_of task.now) (view_sdf task.now.sdf.now) task.now.corner (view_kind entry.now.kind)) (check_with (circuit_of task.now) (view_sdf task.now.sdf.now) task.now.corner (view_kind entry.now.kind)) [] found.now limits.old ≡ true) entry.now.place e) }
{
    match &entry.kind {
        EntryKind::Check(check) => apply_to_each(task, entry.place, check, found, limits),
        _ => Ok(()),
    }
}
