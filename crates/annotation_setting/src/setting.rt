// A circuit with new timings and limits.
ghost use Rattle.std.specs.Prelude.{◌≡◌, All, IfErr, IfOk, IfSome, OnErr, OnOk, List, length, map};
ghost use Rattle.sg_delay.specs.declared.corners.Corner.{Corner};
ghost use Rattle.sg_circuit.specs.Circuit.{Circuit as CircuitSeen};
ghost use Rattle.sg_circuit.specs.Closed.{AreTimings};
ghost use Rattle.sg_circuit.specs.TimingsSeen.{leg_timing_seen};
ghost use Rattle.late_limits.specs.Adjusted.{IsAdjustedFrom};
ghost use Rattle.late_limits.specs.Adjustments.{IsAdjustmentOf, IsLike};
ghost use Rattle.sdf_tree.specs.Meant.{Sdf};
ghost use Rattle.annotation_model.specs.Annotated.{annotated_by};
ghost use Rattle.annotation_model.specs.Given.{Given};
ghost use Rattle.annotation_model.specs.Spots.{all_checked, limits_after, spot_after, spots as all_spots};
ghost use Rattle.annotation_spots.specs.Rows.{AreRows};
ghost use Rattle.annotation_setting.specs.Limits.{AreLimitsOf};
ghost use Rattle.annotation_setting.specs.Table.{timings_seen};

use crate::blank::blank;
use crate::limits::set_limits;
use crate::timings::{count_new, set_timings};
use annotation_spots::Spot;
use circuit_open::OpenCircuit;
use late_limits::Adjustment;
use sg_circuit::{Circuit, LegTiming};
use sg_text::NoMemory;
use std::alloc::Global;
use std::mem;

// The circuit with them; or, without memory, as it was.
fn set_in(
    circuit: Circuit,
    rows: &[Spot],
    timings: &[Option<Box<LegTiming>>],
    limits: &[[i64; 2]],
    adjustment: Adjustment,
) -> Result<Circuit, Circuit>
    requires rows { AreRows circuit rows.now }
    requires timing_of_each { length timings.now ≡ length rows.now }
    requires timings { All (λ t. IfSome t (λ b. AreTimings (leg_timing_seen b.value))) timings.now }
    requires limits { AreLimitsOf circuit limits.now }
    requires adjusted { (made : CircuitSeen) → IsLike circuit limits.now made → IsAdjustmentOf made adjustment }
    ensures annotated { IfOk result (λ new. (sdf : Sdf) (corner : Corner) (gs : List Given)
        → timings_seen (all_spots circuit) timings.now ≡ map (spot_after circuit sdf corner gs) (all_spots circuit)
        → limits.now ≡ map (limits_after circuit sdf corner gs) (all_checked circuit)
        → IsAdjustedFrom (annotated_by circuit sdf corner gs) new) }
    ensures kept { IfErr result (λ back. back ≡ circuit) }
{
    let mut opened = OpenCircuit::reserve(circuit, count_new(timings))?;
    set_timings(&mut opened, rows, timings);
    set_limits(&mut opened, limits);
    opened.adjust(adjustment);
    Ok(opened.close())
}

/// Sets the timings of legs and specify paths, in the order of the rows that number them, where there are new ones, and the limits of
/// all timing checks; and what was found of the delays that these limits ask for. Without memory the circuit is as before. Takes memory in
/// proportion to the new timings.
pub fn set_all(
    alloc: Global,
    circuit: &mut Circuit,
    rows: &[Spot],
    timings: &[Option<Box<LegTiming>>],
    limits: &[[i64; 2]],
    adjustment: Adjustment,
) -> Result<(), NoMemory>
    requires rows { AreRows circuit.old rows.now }
    requires timing_of_each { length timings.now ≡ length rows.now }
    requires timings { All (λ t. IfSome t (λ b. AreTimings (leg_timing_seen b.value))) timings.now }
    requires limits { AreLimitsOf circuit.old limits.now }
    requires adjusted { (made : CircuitSeen) → IsLike circuit.old limits.now made → IsAdjustmentOf made adjustment }
    // They are those after some entries.
    ensures annotated { OnOk result ((sdf : Sdf) (corner : Corner) (gs : List Given)
        → timings_seen (all_spots circuit.old) timings.now ≡ map (spot_after circuit.old sdf corner gs) (all_spots circuit.old)
        → limits.now ≡ map (limits_after circuit.old sdf corner gs) (all_checked circuit.old)
        → IsAdjustedFrom (annotated_by circuit.old sdf corner gs) circuit.new) }
    ensures kept { OnErr result (circuit.new ≡ circuit.old) }
{
    match set_in(
        mem::replace(circuit, blank(alloc)),
        rows,
        timings,
        limits,
        adjustment,
    ) {
        Ok(new) => {
            *circuit = new;
            Ok(())
        }
        Err(back) => {
            *circuit = back;
            Err(NoMemory)
        }
    }
}
