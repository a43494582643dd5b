// How refusals, faults and texts are told.
ghost use Rattle.std.specs.Prelude.{◌≡◌, ◌++◌, ℕ, List, IfOk, IfErr, codes};
ghost use Rattle.std.specs.Option.{option_copied};
ghost use Rattle.sg_io.specs.Put.{Puts, SinkTold};
ghost use Rattle.run_report.specs.Reporting.{PutsMade};
ghost use Rattle.wave_out.specs.Texts.{line};
ghost use Rattle.signoff_phases.specs.Telling.{fault_line, no_memory_line};
ghost use Rattle.signoff_phases.specs.Phases.{located_line, refusal_line, save, save_kind, sdf_kind, status_of_refusal, stimulus_kind, wave_kind};
ghost use Rattle.signoff_phases.specs.Putting.{PutsBy, PutsLast};
ghost use Rattle.signoff_phases.specs.Stops.{refusal_seen, sdf_fault_seen};
ghost use Rattle.signoff_phases.specs.Told.{Tells, TellsMade, TellsStop};

use crate::status::Status;
use crate::stop::{Refusal, SdfFault, Stop};
use itoa::Buffer;
use sdf_read::SdfKind;
use sg_io::{ShelfError, Sink};
use sim_save::SaveKind;
use std::alloc::{AllocError, Global};
use stim_read::StimKind;
use vcd_model::VcdKind;

/// A word and a name, on a line of their own.
pub fn named_line(alloc: Global, before: &str, name: &str) -> Result<Vec<u8>, AllocError>
    ensures { IfOk result (λ v. v.items ≡ line (before.now ++ name.now)) }
{
    let mut text = Vec::new(alloc);
    text.extend_from_slice(before.as_bytes())?;
    text.extend_from_slice(name.as_bytes())?;
    text.push(b'\n')?;
    Ok(text)
}

// What is refused, the line of its file, and the kind of the fault.
fn located_text(
    alloc: Global,
    what: &str,
    name: &str,
    number: u64,
    kind: &[u8],
) -> Result<Vec<u8>, AllocError>
    ensures { IfOk result (λ v. v.items ≡ located_line what.now name.now number kind.now) }
{
    let mut buffer = Buffer::new();
    let mut text = Vec::new(alloc);
    text.extend_from_slice(what.as_bytes())?;
    text.extend_from_slice(name.as_bytes())?;
    text.extend_from_slice(b":")?;
    text.extend_from_slice(buffer.format(number).as_bytes())?;
    text.extend_from_slice(b": ")?;
    text.extend_from_slice(kind)?;
    text.push(b'\n')?;
    Ok(text)
}

fn sdf_word(kind: SdfKind) -> &'static str
    ensures { result.now ≡ sdf_kind kind }
{
    match kind {
        SdfKind::BadByte => "BadByte",
        SdfKind::Syntax => "Syntax",
        SdfKind::BadCount => "BadCount",
        SdfKind::BadNumber => "BadNumber",
        SdfKind::TooDeep => "TooDeep",
        SdfKind::FileTooLarge => "FileTooLarge",
        SdfKind::LimitsCross => "LimitsCross",
    }
}

fn sdf_fault_word(fault: SdfFault) -> &'static str
    ensures { result.now ≡ sdf_fault_seen fault }
{
    match fault {
        SdfFault::Text(kind) => sdf_word(kind),
        SdfFault::TooLarge => "TooLarge",
    }
}

fn stimulus_word(kind: StimKind) -> &'static str
    ensures { result.now ≡ stimulus_kind kind }
{
    match kind {
        StimKind::Syntax => "Syntax",
        StimKind::UnknownInput => "UnknownInput",
        StimKind::WidthMismatch => "WidthMismatch",
        StimKind::TimeNotRising => "TimeNotRising",
        StimKind::NotWholeTick => "NotWholeTick",
        StimKind::NoEnd => "NoEnd",
        StimKind::TooLarge => "TooLarge",
    }
}

fn wave_word(kind: VcdKind) -> &'static str
    ensures { result.now ≡ wave_kind kind }
{
    match kind {
        VcdKind::Syntax => "Syntax",
        VcdKind::UnknownCode => "UnknownCode",
        VcdKind::WidthMismatch => "WidthMismatch",
        VcdKind::TimeFalls => "TimeFalls",
        VcdKind::NotWholeTick => "NotWholeTick",
        VcdKind::TooLarge => "TooLarge",
        VcdKind::NoScope => "NoScope",
    }
}

fn save_word(kind: SaveKind) -> &'static str
    ensures { result.now ≡ save_kind kind }
{
    match kind {
        SaveKind::TooLarge => "TooLarge",
        SaveKind::Damaged => "Damaged",
        SaveKind::Syntax => "Syntax",
        SaveKind::OtherCircuit => "OtherCircuit",
        SaveKind::BadMoment => "BadMoment",
        SaveKind::PastEnd => "PastEnd",
    }
}

/// A saved moment that is refused.
pub fn save_refusal(
    alloc: Global,
    name: &str,
    line: u64,
    kind: SaveKind,
) -> Result<Vec<u8>, AllocError>
    ensures { IfOk result (λ v. v.items ≡ located_line (codes "save refused: ") name.now line (save_kind kind)) }
{
    located_text(
        alloc,
        "save refused: ",
        name,
        line,
        save_word(kind).as_bytes(),
    )
}

fn stimulus_text(alloc: Global, name: &str, line: u64, kind: &str) -> Result<Vec<u8>, AllocError>
    ensures { IfOk result (λ v. v.items ≡ located_line (codes "stimulus refused: ") name.now line kind.now) }
{
    located_text(alloc, "stimulus refused: ", name, line, kind.as_bytes())
}

fn unwritten_text(alloc: Global, kind: &str, path: &[u8]) -> Result<Vec<u8>, AllocError>
    ensures { IfOk result (λ v. v.items ≡ line (codes "not written: " ++ kind.now ++ codes " at " ++ path.now)) }
{
    let mut text = Vec::new(alloc);
    text.extend_from_slice(b"not written: ")?;
    text.extend_from_slice(kind.as_bytes())?;
    text.extend_from_slice(b" at ")?;
    text.extend_from_slice(path)?;
    text.push(b'\n')?;
    Ok(text)
}

// By a program of this usage.
fn refusal_text(alloc: Global, usage: &str, refusal: &Refusal<'_>) -> Result<Vec<u8>, AllocError>
    ensures { IfOk result (λ v. v.items ≡ refusal_line usage.now (refusal_seen refusal.now)) }
{
    match refusal {
        Refusal::Words => named_line(alloc, "", usage),
        Refusal::Missing(name) => named_line(alloc, "missing: ", name),
        Refusal::Netlist { name, line, kind } => {
            located_text(alloc, "netlist refused: ", name, *line, kind)
        }
        Refusal::Sdf { name, line, fault } => located_text(
            alloc,
            "sdf refused: ",
            name,
            *line,
            sdf_fault_word(*fault).as_bytes(),
        ),
        Refusal::Stimulus { name, line, kind } => {
            stimulus_text(alloc, name, *line, stimulus_word(*kind))
        }
        Refusal::Wave { name, line, kind } => {
            stimulus_text(alloc, name, *line, wave_word(*kind))
        }
        Refusal::Save { name, line, kind } => save_refusal(alloc, name, *line, *kind),
        Refusal::Unwritten { kind, path } => unwritten_text(alloc, kind, path),
    }
}

fn status_of(refusal: &Refusal<'_>) -> Status
    ensures { result ≡ status_of_refusal (refusal_seen refusal.now) }
{
    match refusal {
        Refusal::Words => Status::Usage,
        Refusal::Missing(_) => Status::Missing,
        Refusal::Netlist { .. } => Status::Netlist,
        Refusal::Sdf { .. } => Status::Sdf,
        Refusal::Stimulus { .. } | Refusal::Wave { .. } => Status::Stimulus,
        Refusal::Save { .. } => Status::Save,
        Refusal::Unwritten { .. } => Status::Unwritable,
    }
}

// In pieces, so that no memory is taken.
fn put_line<K: Sink>(report: &mut K, before: &[u8], name: &[u8]) -> Result<(), ShelfError>
    ensures { PutsBy (line (before.now ++ name.now)) (K.told report.old) (K.told report.new) result }
{
    report.put(before)?;
    report.put(name)?;
    report.put(b"\n")
}

fn tell_fault<K: Sink>(report: &mut K, name: &str) -> Status
    ensures status { result ≡ Status.Fault }
    ensures put { PutsLast (fault_line name.now) (K.told report.old) (K.told report.new) }
{
    let _ = put_line(report, b"fault: ", name.as_bytes());
    Status::Fault
}

/// Tells that there was no memory. Takes none.
pub fn tell_no_memory<K: Sink>(report: &mut K) -> Status
    ensures status { result ≡ Status.NoMemory }
    ensures put { PutsLast no_memory_line (K.told report.old) (K.told report.new) }
{
    let _ = report.put(b"no memory\n");
    Status::NoMemory
}

// A failing sink turns the end of a run into a fault, which it is told too, and leaves every other status.
fn tell_error<K: Sink>(report: &mut K, planned: Status, error: ShelfError) -> Status
    ensures put { (text : List ℕ) (before : SinkTold) → Puts text before (K.told report.old) (Err error) → TellsMade text planned before (K.told report.new) result }
    ensures made { (text : List ℕ) (before : SinkTold) → PutsMade text before (K.told report.old) (Err error) → Tells text planned before (K.told report.new) result }
{
    match error {
        ShelfError::Failed if planned.is_run_end() => tell_fault(report, "report"),
        ShelfError::Failed => planned,
        ShelfError::NoMemory => tell_no_memory(report),
    }
}

/// How it ends where a text was put so, whichever it was.
pub fn tell_put<K: Sink>(report: &mut K, planned: Status, put: Result<(), ShelfError>) -> Status
    ensures put { (text : List ℕ) (before : SinkTold) → Puts text before (K.told report.old) put → TellsMade text planned before (K.told report.new) result }
    ensures made { (text : List ℕ) (before : SinkTold) → PutsMade text before (K.told report.old) put → Tells text planned before (K.told report.new) result }
{
    match put {
        Ok(()) => planned,
        Err(error) => tell_error(report, planned, error),
    }
}

/// Puts a text.
pub fn put_text<K: Sink>(report: &mut K, planned: Status, text: &[u8]) -> Status
    ensures put { TellsMade text.now planned (K.told report.old) (K.told report.new) result }
    ensures made { Tells text.now planned (K.told report.old) (K.told report.new) result }
{
    let put = report.put(text);
    tell_put(report, planned, put)
}

/// Puts a text, if there was memory for it.
pub fn put_made<K: Sink>(
    report: &mut K,
    planned: Status,
    made: Result<Vec<u8>, AllocError>,
) -> Status
    ensures ok { IfOk made (λ v. Tells v.items planned (K.told report.old) (K.told report.new) result) }
    ensures err { IfErr made (λ _. (text : List ℕ) → Tells text planned (K.told report.old) (K.told report.new) result) }
{
    match made {
        Ok(text) => put_text(report, planned, &text),
        Err(_) => tell_no_memory(report),
    }
}

/// Tells why the work of a program of this usage ended before its report, where `failed` is the name of the file in the
/// last call of the shelf that failed, and gives the program's status.
pub fn tell_stop<K: Sink>(
    alloc: Global,
    usage: &str,
    stop: &Stop<'_>,
    failed: Option<&str>,
    report: &mut K,
) -> Status
    ensures { TellsStop usage.now (option_copied failed.entry) stop.now (K.told report.old) (K.told report.new) result }
{
    match stop {
        Stop::Refused(refusal) => {
            put_made(
                report,
                status_of(refusal),
                refusal_text(alloc, usage, refusal),
            )
        }
        Stop::Failed => tell_fault(report, failed.unwrap_or("")),
        Stop::NoMemory => tell_no_memory(report),
    }
}
