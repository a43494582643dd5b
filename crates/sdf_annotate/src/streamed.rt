// A file whose entries are applied as soon as they are read.
ghost use Rattle.std.specs.Prelude.{◌≡◌, ℕ, IfNone, IfOk, IfSome, List};
ghost use Rattle.annotation_places.specs.Places.{ArePlaces};
ghost use Rattle.annotation_spots.specs.Rows.{AreRows};
ghost use Rattle.sg_circuit.specs.Seen.{circuit_seen};
ghost use Rattle.sdf_stream.specs.Streams.{IsOpened};
ghost use Rattle.sdf_annotate.specs.Seen.{AreCounted};
ghost use Rattle.sdf_annotate.specs.Streamed.{AreAfterText, IsAnnotatedBy, IsFirst};
ghost use Rattle.sdf_annotate.specs.Told.{told_seen};

use crate::entries::annotate_entries;
use crate::search::Search;
use crate::tasks::Task;
use crate::unmatched::Unmatched;
use crate::values::{NewValues, no_timings};
use annotation_places::Places;
use annotation_setting::set_all;
use annotation_spots::Spot;
use late_limits::{adjust, limits_of, signal_counts};
use sdf_stream::{Stream, Visit, open_sdf};
use sdf_tree::{Cell, Entry, Sdf};
use sg_circuit::Circuit;
use sg_delay::Corner;
use sg_text::NoMemory;
use std::alloc::Global;

/// Applies entries to the values of all places.
#[derive(Drop)]
struct Annotator<'t, 'p, 's> {
    task: Task<'t, 'p, 's>,
    search: Search,
    values: NewValues,
}

impl Visit for Annotator<'_, '_, '_> {
    ghost use Rattle.sdf_annotate.specs.Streamed.{HasApplied, IsAnnotator, IsAnnotatorIn};
    ghost use Rattle.sdf_annotate.specs.AppliedLaws.{applied-more, applied-none};

    ghost ready = { λ a. IsAnnotator a };

    ghost within = { λ a cell. IsAnnotatorIn a cell };

    ghost came = { λ a b ts. HasApplied a b ts };

    ghost leaves = { λ a cell h. h.annotator };

    ghost came_none = { λ a h. applied-none a h };

    ghost came_more = { λ a b c xs ys p q. applied-more a b c xs ys p q };

    fn cell(&mut self, alloc: Global, cell: &Cell<'_>) -> Option<()> {
        match self.search.enter(alloc, &self.task, cell) {
            Ok(_) => Some(()),
            Err(_) => None,
        }
    }

    fn entries(&mut self, alloc: Global, cell: &Cell<'_>, entries: &[Entry<'_>]) -> Option<()> {
        match annotate_entries(
            alloc,
            &self.task,
            cell,
            entries,
            &mut self.search,
            &mut self.values,
        ) {
            Ok(_) => Some(()),
            Err(_) => None,
        }
    }
}

// An annotator that was told of nothing.
fn new_annotator<'t, 'p, 's>(
    alloc: Global,
    task: Task<'t, 'p, 's>,
) -> Result<Annotator<'t, 'p, 's>, NoMemory>
    requires places { ArePlaces task.places.now }
    requires signals { AreCounted task }
    ensures { IfOk result (λ a. IsFirst task.entry a) }
{
    let places = task.places;
    let search = Search::new(alloc, &task)?;
    let timings = no_timings(alloc, places.spots.len())?;
    let limits = limits_of(alloc, &places.parts.check_timings)?;
    let unmatched = Vec::new(alloc);
    let values = NewValues {
        timings,
        limits,
        unmatched,
    };
    Ok(Annotator {
        task,
        search,
        values,
    })
}

// The values of all places after a file whose heads are read.
fn values_after(
    alloc: Global,
    places: &Places<'_>,
    stream: Stream<'_>,
    corner: Corner,
) -> Option<NewValues>
    requires { ArePlaces places.now }
    ensures { (text : List ℕ) → IsOpened text stream.entry → IfSome result (AreAfterText (circuit_seen places.now.parts.now) text corner) }
{
    let Ok(signals) = signal_counts(alloc, places.parts) else {
        return None;
    };
    let cells = Vec::new(alloc);
    let sdf = Sdf {
        unit: stream.unit,
        divider: stream.divider,
        cells,
    };
    let task = Task {
        places,
        signals: &signals,
        sdf: &sdf,
        corner,
    };
    let Ok(mut annotator) = new_annotator(alloc, task) else {
        return None;
    };
    stream.tell(alloc, &mut annotator)?;
    Some(annotator.values)
}

// The same of a text, with the rows that number the legs and paths of a circuit.
fn rows_and_values(
    alloc: Global,
    circuit: &Circuit,
    text: &[u8],
    corner: Corner,
) -> Option<(Vec<Spot>, NewValues)>
    ensures rows { IfSome result (λ r. AreRows circuit.now r.0.items) }
    ensures after { IfSome result (λ r. AreAfterText circuit.now text.now corner r.1) }
{
    let stream = open_sdf(alloc, text)?;
    let Ok(places) = Places::of(alloc, circuit) else {
        return None;
    };
    let values = values_after(alloc, &places, stream, corner)?;
    Some((places.spots, values))
}

/// Reads an SDF file, and applies its entries as `annotate` does, each as soon as it is read, so that none is kept. None where the file has
/// a fault, a value is too large, or memory is wanting; the circuit is as before then.
pub fn annotate_text(
    alloc: Global,
    circuit: &mut Circuit,
    text: &[u8],
    corner: Corner,
) -> Option<Vec<Unmatched>>
    // The circuit is annotated with what the text means.
    ensures annotated { IfSome result (λ us. IsAnnotatedBy text.now circuit.old corner circuit.new (told_seen us.items)) }
    ensures kept { IfNone result (circuit.new ≡ circuit.old) }
{
    let (rows, values) = rows_and_values(alloc, circuit, text, corner)?;
    let Ok(adjustment) = adjust(alloc, circuit, &values.limits) else {
        return None;
    };
    match set_all(
        alloc,
        circuit,
        &rows,
        &values.timings,
        &values.limits,
        adjustment,
    ) {
        Ok(_) => Some(values.unmatched),
        Err(_) => None,
    }
}
