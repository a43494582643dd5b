// A whole file.
ghost use Rattle.std.specs.Prelude.{◌≡◌, IfErr, IfOk, OnErr};
ghost use Rattle.sdf_meaning.specs.MeantSeen.{view_sdf};
ghost use Rattle.annotation_places.specs.Places.{ArePlaces};
ghost use Rattle.annotation_spots.specs.Rows.{AreRows};
ghost use Rattle.sdf_annotate.specs.Seen.{AreCounted, circuit_of};
ghost use Rattle.sdf_annotate.specs.Told.{IsAnnotated, IsTooLargeAt, told_seen};
ghost use Rattle.sdf_annotate.specs.Whole.{AreAfter};

use crate::entries::annotate_cells;
use crate::search::Search;
use crate::tasks::Task;
use crate::unmatched::{AnnotError, Unmatched};
use crate::values::{NewValues, no_timings};
use annotation_places::Places;
use annotation_setting::set_all;
use annotation_spots::Spot;
use late_limits::{adjust, limits_of, signal_counts};
use sdf_tree::Sdf;
use sg_circuit::Circuit;
use sg_delay::Corner;
use std::alloc::Global;

// The values of all places after a file.
fn new_values(alloc: Global, task: &Task<'_, '_, '_>) -> Result<NewValues, AnnotError>
    requires places { ArePlaces task.now.places.now }
    requires signals { AreCounted task.now }
    ensures after { IfOk result (AreAfter (circuit_of task.now) (view_sdf task.now.sdf.now) task.now.corner) }
    ensures told { IfErr result (IsTooLargeAt (circuit_of task.now) (view_sdf task.now.sdf.now) task.now.corner) }
{
    let places = task.places;
    let mut search = Search::new(alloc, task)?;
    let mut values = NewValues {
        timings: no_timings(alloc, places.spots.len())?,
        limits: limits_of(alloc, &places.parts.check_timings)?,
        unmatched: Vec::new(alloc),
    };
    annotate_cells(alloc, task, &task.sdf.cells, &mut search, &mut values)?;
    Ok(values)
}

// The same of a circuit, with the rows that number its legs and paths.
fn numbered_values(
    alloc: Global,
    circuit: &Circuit,
    sdf: &Sdf<'_>,
    corner: Corner,
) -> Result<(Vec<Spot>, NewValues), AnnotError>
    ensures rows { IfOk result (λ r. AreRows circuit.now r.0.items) }
    ensures after { IfOk result (λ r. AreAfter circuit.now (view_sdf sdf.now) corner r.1) }
    ensures told { IfErr result (IsTooLargeAt circuit.now (view_sdf sdf.now) corner) }
{
    let places = Places::of(alloc, circuit)?;
    let signals = signal_counts(alloc, places.parts)?;
    let task = Task {
        places: &places,
        signals: &signals,
        sdf,
        corner,
    };
    let values = new_values(alloc, &task)?;
    Ok((places.spots, values))
}

/// Applies the entries of an SDF file to a circuit's delays and limits, one after another in the order of the file, with the values of a
/// corner (IEEE 1497-2001; IEEE 1364-2005, clause 16), and gives the entries that are for nothing, in that order. Values are in ticks
/// afterwards. The delays of Lates then follow from the new limits (15.8).
///
/// TooLarge names the first entry that is for something and at which a value, or what it makes, is 2^60 ticks or more; a limit of setuphold
/// or recrem weighs once more than its scope has signals with delayed copies. After a refusal the circuit is as before. Takes memory in
/// proportion to the circuit, and to what is annotated.
pub fn annotate(
    alloc: Global,
    circuit: &mut Circuit,
    sdf: &Sdf<'_>,
    corner: Corner,
) -> Result<Vec<Unmatched>, AnnotError>
    ensures annotated { IfOk result (λ us. IsAnnotated circuit.old (view_sdf sdf.now) corner circuit.new (told_seen us.items)) }
    ensures told { IfErr result (IsTooLargeAt circuit.old (view_sdf sdf.now) corner) }
    ensures kept { OnErr result (circuit.new ≡ circuit.old) }
{
    let (rows, values) = numbered_values(alloc, circuit, sdf, corner)?;
    let adjustment = adjust(alloc, circuit, &values.limits)?;
    set_all(
        alloc,
        circuit,
        &rows,
        &values.timings,
        &values.limits,
        adjustment,
    )?;
    Ok(values.unmatched)
}
