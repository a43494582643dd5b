// What an entry makes of a timing.
ghost use Rattle.std.specs.Prelude.{Bool, Option};
ghost use Rattle.std.specs.Option.{option_map};
ghost use Rattle.sdf_meaning.specs.MeantSeen.{view_meant, view_triple};
ghost use Rattle.sdf_tree.specs.Meant.{path_pulse};
ghost use Rattle.sdf_tree.specs.Written.{Port};
ghost use Rattle.sg_circuit.specs.TimingsSeen.{leg_timing_seen};
ghost use Rattle.annotation_model.specs.Applied as def;
ghost use Rattle.annotation_values.specs.Leg.{TellsAll};
ghost use Rattle.annotation_values.specs.Seen.{grid_seen};

use crate::grids::Grid;
use crate::pulses::{with_percents, with_pulses};
use crate::spreading::with_list;
use crate::values::TooLarge;
use sdf_tree::{Entry, EntryKind};
use sg_circuit::LegTiming;
use sg_delay::Triple;

// PATHPULSE, or in percent PATHPULSEPERCENT.
fn with_path_pulse(
    grid: Grid,
    percent: bool,
    reject: &Triple,
    error: &Option<Triple>,
    timing: &LegTiming,
) -> Result<LegTiming, TooLarge>
    ensures { (increment : Bool) (ports : Option (Port × Port)) → TellsAll (def.is_kind_large (grid_seen grid) increment (path_pulse percent ports (view_triple reject.now) (option_map view_triple error.now)) (leg_timing_seen timing.now)) (def.applied_kind (grid_seen grid) increment (path_pulse percent ports (view_triple reject.now) (option_map view_triple error.now)) (leg_timing_seen timing.now)) result }
{
    if percent {
        with_percents(grid, reject, error, timing)
    } else {
        with_pulses(grid, reject, error, timing)
    }
}

/// The timing of a path or a leg, in ticks, after an entry that is for it (IEEE 1497-2001, delay entries): a list changes the delays of its
/// transitions, with limits of pulses where it has some; PATHPULSE and PATHPULSEPERCENT set the limits of all transitions; a timing check
/// and what is passed over leave it as it was. A value, a sum or a limit of 2^60 ticks or more is TooLarge.
pub fn apply_entry(grid: Grid, entry: &Entry<'_>, timing: &LegTiming) -> Result<LegTiming, TooLarge>
    ensures { TellsAll (def.is_too_large (grid_seen grid) (view_meant entry.now) (leg_timing_seen timing.now)) (def.applied (grid_seen grid) (view_meant entry.now) (leg_timing_seen timing.now)) result }
{
    let increment = entry.increment;
    match &entry.kind {
        EntryKind::IoPath { delays, .. } => with_list(grid, increment, delays, timing),
        EntryKind::Device { delays, .. } => with_list(grid, increment, delays, timing),
        EntryKind::Port { delays, .. } => with_list(grid, increment, delays, timing),
        EntryKind::Interconnect { delays, .. } => with_list(grid, increment, delays, timing),
        EntryKind::PathPulse {
            percent,
            reject,
            error,
            ..
        } => with_path_pulse(grid, *percent, reject, error, timing),
        EntryKind::Check(_) => Ok(*timing),
        EntryKind::Skipped(_) => Ok(*timing),
    }
}
