// The phases of a design, one call for each.
ghost use Rattle.std.specs.Prelude.{◌≡◌, ◌<◌, List, Some, IfErr, IfOk, length, map, option_map, slice_index_or, []};
ghost use Rattle.sg_io.specs.Faults.{Cause};
ghost use Rattle.sg_io.specs.Files.{File, bytes_of};
ghost use Rattle.netlist_read.specs.Seen.{kind_seen};
ghost use Rattle.run_words.specs.WordsSeen.{design_seen};
ghost use Rattle.signoff_phases.specs.Phases.{CircuitOutcome, DesignOutcome, FileOutcome, FileWithin, FilesOutcome, NetlistOutcome, refused_at};
ghost use Rattle.signoff_phases.specs.Stops.{FailsAtDesign, FailsAtOne, Gives, IfFailed, NeverFails, SparesWords, end_of_phase, refusal_seen};
ghost use Rattle.signoff_phases.specs.AnnotatedSeen.{annotated_seen};

use crate::annotation::{Annotated, annotation_of};
use crate::stop::{Refusal, Stop};
use netlist_read::{NetlistKind, read_netlist, write_kind};
use run_words::Design;
use sg_circuit::Circuit;
use sg_delay::Corner;
use sg_io::{ReadError, Shelf};
use sg_text::{NoMemory, Place, Refused};
use std::alloc::Global;

// One byte more than an input file may have.
const READ_LIMIT: u64 = (1 << 28) + 1;

/// The first bytes of the file of this name, up to a limit.
pub fn file_within<'a, S: Shelf>(
    alloc: Global,
    shelf: &mut S,
    name: &'a str,
    limit: u64,
) -> Result<Vec<u8>, Stop<'a>>
    ensures gives { (files : List File) → S.files shelf.old ≡ Some files
        → Gives (λ v. v.items) (FileWithin limit name.now (bytes_of name.now files)) result }
    ensures held { S.files shelf.new ≡ S.files shelf.old }
    ensures cause { Cause (S.fault_count shelf.old) (S.fault_count shelf.new) (end_of_phase result) }
    ensures named { IfFailed (S.last_fault shelf.new ≡ Some name.now) result }
    ensures words { IfErr result (λ s. SparesWords s) }
{
    match shelf.read(alloc, name, limit) {
        Ok(bytes) => Ok(bytes),
        Err(ReadError::Missing) => Err(Stop::Refused(Refusal::Missing(name))),
        Err(ReadError::Failed) => Err(Stop::Failed),
        Err(ReadError::NoMemory) => Err(Stop::NoMemory),
    }
}

/// An input file.
pub fn file_phase<'a, S: Shelf>(
    alloc: Global,
    shelf: &mut S,
    name: &'a str,
) -> Result<Vec<u8>, Stop<'a>>
    ensures gives { (files : List File) → S.files shelf.old ≡ Some files
        → Gives (λ v. v.items) (FileOutcome name.now (bytes_of name.now files)) result }
    ensures held { S.files shelf.new ≡ S.files shelf.old }
    ensures cause { Cause (S.fault_count shelf.old) (S.fault_count shelf.new) (end_of_phase result) }
    ensures named { IfFailed (S.last_fault shelf.new ≡ Some name.now) result }
    ensures words { IfErr result (λ s. SparesWords s) }
{
    file_within(alloc, shelf, name, READ_LIMIT)
}

// The files of these names, in order.
fn files_phase<'a, S: Shelf>(
    alloc: Global,
    shelf: &mut S,
    names: &[&'a str],
) -> Result<Vec<Vec<u8>>, Stop<'a>>
    ensures gives { (files : List File) → S.files shelf.old ≡ Some files
        → Gives (λ v. map (λ f. f.items) v.items) (FilesOutcome (map (λ n. n.now) names.now) files) result }
    ensures count { IfOk result (λ v. length v.items ≡ length names.now) }
    ensures held { S.files shelf.new ≡ S.files shelf.old }
    ensures cause { Cause (S.fault_count shelf.old) (S.fault_count shelf.new) (end_of_phase result) }
    ensures named { IfFailed (FailsAtOne (map (λ n. n.now) names.now) (S.files shelf.old) (S.last_fault shelf.new)) result }
    ensures words { IfErr result (λ s. SparesWords s) }
{
    let mut texts = Vec::new(alloc);
    for name in names {
        let text = file_phase(alloc, shelf, *name)?;
        texts.push(text)?;
    }
    Ok(texts)
}

fn name_at<'a>(names: &[&'a str], file: u32) -> &'a str
    ensures { result.now ≡ slice_index_or (map (λ n. n.now) names.now) file [] }
{
    match names.get(file as usize) {
        Some(name) => *name,
        None => "",
    }
}

fn text_at(files: &[Vec<u8>], file: u32) -> &[u8]
    ensures { result.now ≡ slice_index_or (map (λ f. f.items) files.now) file [] }
{
    match files.get(file as usize) {
        Some(text) => text,
        None => &[],
    }
}

// A fault at a place of the files of these names.
fn netlist_refusal<'a>(
    alloc: Global,
    names: &[&'a str],
    files: &[Vec<u8>],
    kind: &NetlistKind<'_>,
    place: Place,
) -> Result<Refusal<'a>, NoMemory>
    ensures { IfOk result (λ r. refusal_seen r ≡ refused_at (map (λ n. n.now) names.now) (map (λ f. f.items) files.now) (kind_seen kind.now) place) }
{
    let kind = write_kind(alloc, kind)?;
    let name = name_at(names, place.file);
    let line = place.line_of(text_at(files, place.file));
    Ok(Refusal::Netlist { name, line, kind })
}

fn top_bytes(top: Option<&str>) -> Option<&[u8]>
    ensures { option_map (λ n. n.now) result ≡ option_map (λ n. n.now) top.entry }
{
    match top {
        Some(name) => Some(name.as_bytes()),
        None => None,
    }
}

/// What the texts of the files of these names say.
pub fn netlist_phase<'a>(
    alloc: Global,
    names: &[&'a str],
    files: &[Vec<u8>],
    top: Option<&str>,
    corner: Corner,
) -> Result<Circuit, Stop<'a>>
    requires some { 0 < length files.now }
    ensures gives { Gives (λ c. c) (NetlistOutcome (map (λ n. n.now) names.now) (map (λ f. f.items) files.now) (option_map (λ n. n.now) top.entry) corner) result }
    ensures works { NeverFails result }
    ensures words { IfErr result (λ s. SparesWords s) }
{
    match read_netlist(alloc, files, top_bytes(top), corner) {
        Ok(circuit) => Ok(circuit),
        Err(Refused::Fault { kind, place }) => {
            let refusal = netlist_refusal(alloc, names, files, &kind, place)?;
            Err(Stop::Refused(refusal))
        }
        Err(Refused::NoMemory) => Err(Stop::NoMemory),
    }
}

// The netlist's files and their texts.
fn circuit_of<'a, S: Shelf>(
    alloc: Global,
    shelf: &mut S,
    design: &Design<'a>,
) -> Result<Circuit, Stop<'a>>
    requires some { 0 < length design.now.netlists.items }
    ensures gives { (files : List File) → S.files shelf.old ≡ Some files → Gives (λ c. c) (CircuitOutcome (design_seen design.now) files) result }
    ensures held { S.files shelf.new ≡ S.files shelf.old }
    ensures cause { Cause (S.fault_count shelf.old) (S.fault_count shelf.new) (end_of_phase result) }
    ensures named { IfFailed (FailsAtOne (design_seen design.now).netlists (S.files shelf.old) (S.last_fault shelf.new)) result }
    ensures words { IfErr result (λ s. SparesWords s) }
{
    let texts = files_phase(alloc, shelf, &design.netlists)?;
    netlist_phase(alloc, &design.netlists, &texts, design.top, design.corner)
}

/// All phases of a design: the netlist, and the SDF file.
pub fn annotated_of<'a, S: Shelf>(
    alloc: Global,
    design: &Design<'a>,
    shelf: &mut S,
) -> Result<Annotated, Stop<'a>>
    requires some { 0 < length design.now.netlists.items }
    ensures gives { (files : List File) → S.files shelf.old ≡ Some files
        → Gives (λ a. annotated_seen a) (DesignOutcome (design_seen design.now) files) result }
    ensures held { S.files shelf.new ≡ S.files shelf.old }
    ensures cause { Cause (S.fault_count shelf.old) (S.fault_count shelf.new) (end_of_phase result) }
    ensures named { IfFailed (FailsAtDesign (design_seen design.now) (S.files shelf.old) (S.last_fault shelf.new)) result }
    ensures words { IfErr result (λ s. SparesWords s) }
{
    let circuit = circuit_of(alloc, shelf, design)?;
    annotation_of(alloc, shelf, design, circuit)
}
