// The phases of an SDF file, one call for each.
ghost use Rattle.std.specs.Prelude.{◌≡◌, List, Some, IfErr, map};
ghost use Rattle.sdf_meaning.specs.MeantSeen.{view_sdf};
ghost use Rattle.sg_io.specs.Faults.{Cause};
ghost use Rattle.sg_io.specs.Files.{File};
ghost use Rattle.run_words.specs.WordsSeen.{design_seen};
ghost use Rattle.run_report.specs.Reporting.{unmatched_seen};
ghost use Rattle.run_report.specs.Texts.{line_of};
ghost use Rattle.signoff_phases.specs.Phases.{AnnotatedOutcome, AnnotationOutcome, EntriesOutcome, SdfOutcome, sdf};
ghost use Rattle.signoff_phases.specs.Stops.{FailsAtGiven, Gives, IfFailed, NeverFails, SparesWords, end_of_phase, refusal_seen, sdf_fault_seen};
ghost use Rattle.signoff_phases.specs.AnnotatedSeen.{annotated_seen};

use crate::phases::file_phase;
use crate::stop::{Refusal, SdfFault, Stop};
use run_words::Design;
use sdf_annotate::{AnnotError, Unmatched, annotate, annotate_text};
use sdf_read::read_sdf;
use sdf_tree::Sdf;
use sg_circuit::Circuit;
use sg_delay::Corner;
use sg_io::Shelf;
use sg_text::{Place, Refused};
use std::alloc::Global;

/// A circuit as the entries of an SDF file leave it; the file's bytes, and its entries that matched nothing.
#[derive(Drop)]
pub struct Annotated {
    pub circuit: Circuit,
    pub sdf: Vec<u8>,
    pub unmatched: Vec<Unmatched>,
}

// A fault at a place of the file of this name and text.
fn sdf_refusal<'a>(name: &'a str, text: &[u8], fault: SdfFault, place: Place) -> Refusal<'a>
    ensures { refusal_seen result ≡ sdf name.now (line_of text.now place.byte) (sdf_fault_seen fault) }
{
    Refusal::Sdf {
        name,
        line: place.line_of(text),
        fault,
    }
}

fn sdf_phase<'a, 't>(alloc: Global, name: &'a str, text: &'t [u8]) -> Result<Sdf<'t>, Stop<'a>>
    ensures gives { Gives (λ s. view_sdf s) (SdfOutcome name.now text.now) result }
    ensures works { NeverFails result }
    ensures words { IfErr result (λ s. SparesWords s) }
{
    match read_sdf(alloc, text) {
        Ok(sdf) => Ok(sdf),
        Err(Refused::Fault { kind, place }) => {
            let refusal = sdf_refusal(name, text, SdfFault::Text(kind), place);
            Err(Stop::Refused(refusal))
        }
        Err(Refused::NoMemory) => Err(Stop::NoMemory),
    }
}

fn annotation_phase<'a>(
    alloc: Global,
    name: &'a str,
    text: &[u8],
    sdf: &Sdf<'_>,
    corner: Corner,
    circuit: &mut Circuit,
) -> Result<Vec<Unmatched>, Stop<'a>>
    ensures gives { Gives (λ us. record { circuit = circuit.new; unmatched = map (unmatched_seen text.now) us.items }) (AnnotationOutcome name.now text.now (view_sdf sdf.now) corner circuit.old) result }
    ensures works { NeverFails result }
    ensures words { IfErr result (λ s. SparesWords s) }
{
    match annotate(alloc, circuit, sdf, corner) {
        Ok(unmatched) => Ok(unmatched),
        Err(AnnotError::TooLarge { place }) => {
            let refusal = sdf_refusal(name, text, SdfFault::TooLarge, place);
            Err(Stop::Refused(refusal))
        }
        Err(AnnotError::NoMemory) => Err(Stop::NoMemory),
    }
}

/// Reads an SDF text in, and applies its entries to the circuit. The name is that of its file.
pub fn apply_text<'a>(
    alloc: Global,
    name: &'a str,
    text: &[u8],
    corner: Corner,
    circuit: &mut Circuit,
) -> Result<Vec<Unmatched>, Stop<'a>>
    ensures gives { Gives (λ us. record { circuit = circuit.new; unmatched = map (unmatched_seen text.now) us.items }) (EntriesOutcome name.now text.now corner circuit.old) result }
    ensures works { NeverFails result }
    ensures words { IfErr result (λ s. SparesWords s) }
{
    if let Some(unmatched) = annotate_text(alloc, circuit, text, corner) {
        return Ok(unmatched);
    }
    let sdf = sdf_phase(alloc, name, text)?;
    annotation_phase(alloc, name, text, &sdf, corner, circuit)
}

// Applies the entries of the file of this name.
fn apply_file<'a, S: Shelf>(
    alloc: Global,
    shelf: &mut S,
    name: &'a str,
    corner: Corner,
    circuit: Circuit,
) -> Result<Annotated, Stop<'a>>
    ensures gives { (files : List File) → S.files shelf.old ≡ Some files
        → Gives (λ a. annotated_seen a) (AnnotatedOutcome (Some name.now) corner files circuit) result }
    ensures held { S.files shelf.new ≡ S.files shelf.old }
    ensures cause { Cause (S.fault_count shelf.old) (S.fault_count shelf.new) (end_of_phase result) }
    ensures named { IfFailed (S.last_fault shelf.new ≡ Some name.now) result }
    ensures words { IfErr result (λ s. SparesWords s) }
{
    let mut circuit = circuit;
    let sdf = file_phase(alloc, shelf, name)?;
    let unmatched = apply_text(alloc, name, &sdf, corner, &mut circuit)?;
    Ok(Annotated {
        circuit,
        sdf,
        unmatched,
    })
}

/// The circuit as the SDF file of a design leaves it. Without one it is as it was.
pub fn annotation_of<'a, S: Shelf>(
    alloc: Global,
    shelf: &mut S,
    design: &Design<'a>,
    circuit: Circuit,
) -> Result<Annotated, Stop<'a>>
    ensures gives { (files : List File) → S.files shelf.old ≡ Some files
        → Gives (λ a. annotated_seen a) (AnnotatedOutcome (design_seen design.now).sdf design.now.corner files circuit) result }
    ensures held { S.files shelf.new ≡ S.files shelf.old }
    ensures cause { Cause (S.fault_count shelf.old) (S.fault_count shelf.new) (end_of_phase result) }
    ensures named { IfFailed (FailsAtGiven (design_seen design.now).sdf (S.last_fault shelf.new)) result }
    ensures words { IfErr result (λ s. SparesWords s) }
{
    match design.sdf {
        Some(name) => apply_file(alloc, shelf, name, design.corner, circuit),
        None => Ok(Annotated {
            circuit,
            sdf: Vec::new(alloc),
            unmatched: Vec::new(alloc),
        }),
    }
}
