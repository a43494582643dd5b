// The delays of a design, written to a file.
ghost use Rattle.std.specs.Prelude.{◌≡◌, ◌<◌, ℕ, List, IfErr, IfOk, Some, length, map};
ghost use Rattle.std.specs.Option.{option_map};
ghost use Rattle.sg_io.specs.Faults.{Cause, NamesFault};
ghost use Rattle.sg_io.specs.Files.{BothTell, File};
ghost use Rattle.sg_circuit.specs.Circuit.{Circuit as Seen};
ghost use Rattle.run_words.specs.Words.{a_writing, asked_of};
ghost use Rattle.run_words.specs.WordsSeen.{writing_seen};
ghost use Rattle.wave_out.specs.Files.{Leaves, LeavesWanting};
ghost use Rattle.run_report.specs.Report.{path_of};
ghost use Rattle.run_report.specs.Reporting.{unmatched_seen};
ghost use Rattle.written_model.specs.Faults.{FaultStands};
ghost use Rattle.signoff_top.specs.Answer.{written_lines};
ghost use Rattle.signoff_top.specs.Phases.{TextOutcome, WritingOutcome, unwritten_by};
ghost use Rattle.signoff_phases.specs.Phases.{unwritten};
ghost use Rattle.signoff_top.specs.Promises.{NamesFaultAt};
ghost use Rattle.signoff_phases.specs.Stops.{Gives, IfFailed, NeverFails, SparesWords, end_of_phase};
ghost use Rattle.signoff_top.specs.Tasks.{written_seen};

use crate::summary::push_count;
use run_report::{push_path, push_unmatched};
use run_words::Writing;
use sdf_write::{WriteError, sdf_text};
use sg_circuit::Circuit;
use sg_io::{Shelf, ShelfError};
use signoff_phases::{Annotated, Refusal, Stop, annotated_of};
use std::alloc::{AllocError, Global};

/// What is written of a design.
#[derive(Drop)]
pub struct Written {
    pub annotated: Annotated,
    pub text: Vec<u8>,
}

/// The report of delays that were written.
#[derive(Drop)]
pub struct WritingDone {
    pub report: Vec<u8>,
}

// The kind of a fault, and the scope in which it is.
fn told_by(error: WriteError) -> Option<(&'static str, u32)>
    ensures { (c : Seen) → option_map (λ p. unwritten p.0.now (path_of c p.1)) result ≡ unwritten_by c error }
{
    match error {
        WriteError::Ambiguous { scope } => Some(("Ambiguous", scope)),
        WriteError::OffGrid { scope } => Some(("OffGrid", scope)),
        WriteError::TooDeep { scope } => Some(("TooDeep", scope)),
        WriteError::TooLong { scope } => Some(("TooLong", scope)),
        WriteError::TooLarge { scope } => Some(("TooLarge", scope)),
        WriteError::NoMemory => None,
    }
}

fn path_text(alloc: Global, circuit: &Circuit, scope: u32) -> Result<Vec<u8>, AllocError>
    ensures { IfOk result (λ path. path.items ≡ path_of circuit.now scope) }
{
    let mut path = Vec::new(alloc);
    push_path(alloc, &mut path, circuit, scope)?;
    Ok(path)
}

// A fault that stands, with the path of its scope.
fn refused_text<'a>(
    alloc: Global,
    circuit: &Circuit,
    error: WriteError,
) -> Result<Vec<u8>, Stop<'a>>
    requires { FaultStands circuit.now error }
    ensures gives { Gives (λ v. v.items) (TextOutcome circuit.now) result }
    ensures works { NeverFails result }
    ensures words { IfErr result (λ s. SparesWords s) }
{
    let Some((kind, scope)) = told_by(error) else {
        return Err(Stop::NoMemory);
    };
    let path = path_text(alloc, circuit, scope)?;
    Err(Stop::Refused(Refusal::Unwritten { kind, path }))
}

// The delays of a circuit as a text.
fn text_phase<'a>(alloc: Global, circuit: &Circuit) -> Result<Vec<u8>, Stop<'a>>
    ensures gives { Gives (λ v. v.items) (TextOutcome circuit.now) result }
    ensures works { NeverFails result }
    ensures words { IfErr result (λ s. SparesWords s) }
{
    match sdf_text(alloc, circuit) {
        Ok(text) => Ok(text),
        Err(error) => refused_text(alloc, circuit, error),
    }
}

/// All phases of a writing up to its file: the design, and the text of its delays.
pub fn written_of<'a, S: Shelf>(
    alloc: Global,
    writing: &Writing<'a>,
    shelf: &mut S,
) -> Result<Written, Stop<'a>>
    requires some { 0 < length writing.now.design.netlists.items }
    ensures gives { (files : List File) → S.files shelf.old ≡ Some files
        → Gives (λ w. written_seen w) (WritingOutcome (writing_seen writing.now) files) result }
    ensures held { S.files shelf.new ≡ S.files shelf.old }
    ensures cause { Cause (S.fault_count shelf.old) (S.fault_count shelf.new) (end_of_phase result) }
    ensures named { (ws : List (List ℕ)) → asked_of ws ≡ Some (a_writing (writing_seen writing.now))
        → IfFailed (NamesFaultAt ws (S.files shelf.old) (S.files shelf.new) (S.last_fault shelf.new)) result }
    ensures words { IfErr result (λ s. SparesWords s) }
{
    let annotated = annotated_of(alloc, &writing.design, shelf)?;
    let text = text_phase(alloc, &annotated.circuit)?;
    Ok(Written { annotated, text })
}

/// The report of a writing: the entries that were for nothing, and how many they are.
pub fn written_report(alloc: Global, annotated: &Annotated) -> Result<Vec<u8>, AllocError>
    ensures { IfOk result (λ v. v.items ≡ written_lines (map (unmatched_seen annotated.now.sdf.items) annotated.now.unmatched.items)) }
{
    let mut text = Vec::new(alloc);
    push_unmatched(&mut text, &annotated.sdf, &annotated.unmatched)?;
    push_count(&mut text, "unannotated ", annotated.unmatched.len() as u64)?;
    Ok(text)
}

/// Makes a file of this text.
pub fn make_file<S: Shelf>(shelf: &mut S, name: &str, text: &[u8]) -> Result<(), ShelfError>
    ensures file { BothTell (S.files shelf.old) (S.files shelf.new) (Leaves name.now text.now result) }
    ensures begun { BothTell (S.files shelf.old) (S.files shelf.new) (LeavesWanting name.now result) }
    ensures cause { Cause (S.fault_count shelf.old) (S.fault_count shelf.new) result }
    ensures named { NamesFault name.now (S.last_fault shelf.old) (S.last_fault shelf.new) result }
{
    shelf.create(name)?;
    shelf.append(name, text)?;
    Ok(())
}
