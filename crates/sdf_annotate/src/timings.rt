// An entry applied to the legs and specify paths that it is for.
ghost use Rattle.std.specs.Prelude.{◌≡◌, ◌<◌, [], All, IfErr, OnOk, false, length, true};
ghost use Rattle.sg_circuit.specs.TimingsSeen.{leg_timing_seen};
ghost use Rattle.sdf_meaning.specs.MeantSeen.{view_meant, view_sdf};
ghost use Rattle.annotation_model.specs.Applied.{applied, is_too_large};
ghost use Rattle.annotation_model.specs.Listed.{written};
ghost use Rattle.annotation_model.specs.Passes.{meets_large};
ghost use Rattle.annotation_model.specs.Spots as model;
ghost use Rattle.annotation_model.specs.Spots.{grid, scope_of, spots};
ghost use Rattle.annotation_places.specs.Places.{ArePlaces};
ghost use Rattle.annotation_setting.specs.Table.{timings_or, timings_seen};
ghost use Rattle.annotation_spots.specs.Rows.{IsIn, spot_of};
ghost use Rattle.annotation_values.specs.Leg.{TellsAll};
ghost use Rattle.sdf_annotate.specs.Seen.{Told, circuit_of, is_spot_large, spot_with};

use crate::scales::grid_of;
use crate::tasks::Task;
use crate::unmatched::AnnotError;
use annotation_spots::Spot;
use annotation_values::{TooLarge, apply_entry};
use sdf_tree::Entry;
use sg_circuit::LegTiming;
use sg_text::NoMemory;
use std::alloc::Global;

// What an entry makes of the timing of a place: of the new one, or else of the circuit's.
fn timing_after(
    task: &Task<'_, '_, '_>,
    entry: &Entry<'_>,
    row: Spot,
    new: &Option<Box<LegTiming>>,
) -> Result<LegTiming, TooLarge>
    requires places { ArePlaces task.now.places.now }
    requires row { IsIn (circuit_of task.now) row }
    ensures { TellsAll (is_too_large (grid (circuit_of task.now) (view_sdf task.now.sdf.now) task.now.corner (scope_of (spot_of (circuit_of task.now) row))) (view_meant entry.now) (timings_or (spot_of (circuit_of task.now) row) new.now)) (applied (grid (circuit_of task.now) (view_sdf task.now.sdf.now) task.now.corner (scope_of (spot_of (circuit_of task.now) row))) (view_meant entry.now) (timings_or (spot_of (circuit_of task.now) row) new.now)) result }
{
    let grid = grid_of(task, row.scope(task.places.parts));
    match new {
        Some(timing) => apply_entry(grid, entry, timing),
        None => apply_entry(grid, entry, row.timing(task.places.parts)),
    }
}

// The new timing of a place, in the box that it has or in one of its own.
fn set(alloc: Global, timing: LegTiming, new: &mut Option<Box<LegTiming>>) -> Result<(), NoMemory>
    ensures { OnOk result ((spot : model.Spot) → timings_or spot new.new ≡ leg_timing_seen timing) }
{
    match new {
        Some(old) => {
            **old = timing;
        }
        None => {
            *new = Some(Box::new(alloc, timing)?);
        }
    }
    Ok(())
}

// An entry applied to one place.
fn apply_to_spot(
    alloc: Global,
    task: &Task<'_, '_, '_>,
    entry: &Entry<'_>,
    row: Spot,
    new: &mut Option<Box<LegTiming>>,
) -> Result<(), AnnotError>
    requires places { ArePlaces task.now.places.now }
    requires row { IsIn (circuit_of task.now) row }
    ensures fine { OnOk result (is_too_large (grid (circuit_of task.now) (view_sdf task.now.sdf.now) task.now.corner (scope_of (spot_of (circuit_of task.now) row))) (view_meant entry.now) (timings_or (spot_of (circuit_of task.now) row) new.old) ≡ false) }
    ensures applied { OnOk result (timings_or (spot_of (circuit_of task.now) row) new.new ≡ applied (grid (circuit_of task.now) (view_sdf task.now.sdf.now) task.now.corner (scope_of (spot_of (circuit_of task.now) row))) (view_meant entry.now) (timings_or (spot_of (circuit_of task.now) row) new.old)) }
    ensures told { IfErr result (λ e. Told (is_too_large (grid (circuit_of task.now) (view_sdf task.now.sdf.now) task.now.corner (scope_of (spot_of (circuit_of task.now) row))) (view_meant entry.now) (timings_or (spot_of (circuit_of task.now) row) new.old) ≡ true) entry.now.place e) }
{
    let Ok(timing) = timing_after(task, entry, row, new) else {
        return Err(AnnotError::TooLarge { place: entry.place });
    };
    set(alloc, timing, new)?;
    Ok(())
}

/// The timings of the legs and paths of these numbers after an entry.
pub fn apply_to_spots(
    alloc: Global,
    task: &Task<'_, '_, '_>,
    entry: &Entry<'_>,
    found: &[u32],
    timings: &mut [Option<Box<LegTiming>>],
) -> Result<(), AnnotError>
    requires places { ArePlaces task.now.places.now }
    requires timing_of_each { length timings.old ≡ length task.now.places.now.spots.items }
    requires found { All (λ k. k < length timings.old) found.now }
    ensures fine { OnOk result (meets_large (is_spot_large (circuit_of task.now) (view_sdf task.now.sdf.now) task.now.corner (view_meant entry.now)) (spot_with (circuit_of task.now) (view_sdf task.now.sdf.now) task.now.corner (view_meant entry.now)) [] found.now (timings_seen (spots (circuit_of task.now)) timings.old) ≡ false) }
    ensures written { OnOk result (timings_seen (spots (circuit_of task.now)) timings.new ≡ written (spot_with (circuit_of task.now) (view_sdf task.now.sdf.now) task.now.corner (view_meant entry.now)) [] found.now (timings_seen (spots (circuit_of task.now)) timings.old)) }
    ensures told { IfErr result (λ e. Told (meets_large (is_spot_large (circuit_of task.now) (view_sdf task.now.sdf.now) task.now.corner (view_meant entry.now)) (spot_with (circuit_of task.now) (view_sdf task.now.sdf.now) task.now.corner (view_meant entry.now)) [] found.now (timings_seen (spots (circuit_of task.now)) timings.old) ≡ true) entry.now.place e) }
{
    for number in found {
        let row = task.places.spots[*number as usize];
        apply_to_spot(alloc, task, entry, row, &mut timings[*number as usize])?;
    }
    Ok(())
}
