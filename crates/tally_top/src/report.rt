// The report.
ghost use Rattle.std.specs.Prelude.{◌≡◌, ◌++◌};
ghost use Rattle.std.specs.Option.{option_copied};
ghost use Rattle.tally_top.specs.Answer.{fault_line, line, no_memory_line};
ghost use Rattle.tally_top.specs.Putting.{PutsBy, PutsLast};
ghost use Rattle.tally_top.specs.Seen.{Tells, TellsEnd};
ghost use Rattle.sg_io.specs.Put.{Puts, SinkTold};
ghost use Rattle.std.specs.Prelude.{ℕ, List, Err};

use crate::answers::Answer;
use crate::status::Status;
use sg_io::{ShelfError, Sink};

// In pieces, so that no memory is taken.
fn put_line<K: Sink>(report: &mut K, before: &[u8], name: &[u8]) -> Result<(), ShelfError>
    ensures { PutsBy (line (before.now ++ name.now)) (K.told report.old) (K.told report.new) result }
{
    report.put(before)?;
    report.put(name)?;
    report.put(b"\n")
}

fn tell_fault<K: Sink>(report: &mut K, name: &str) -> Status
    ensures status { result ≡ Status.Fault }
    ensures put { PutsLast (fault_line name.now) (K.told report.old) (K.told report.new) }
{
    let _ = put_line(report, b"fault: ", name.as_bytes());
    Status::Fault
}

/// Tells that there was no memory. Takes none.
pub fn tell_no_memory<K: Sink>(report: &mut K) -> Status
    ensures status { result ≡ Status.NoMemory }
    ensures put { PutsLast no_memory_line (K.told report.old) (K.told report.new) }
{
    let _ = report.put(b"no memory\n");
    Status::NoMemory
}

// A failing sink turns a report of figures into a fault, which it is told too, and leaves every other status.
fn tell_error<K: Sink>(report: &mut K, planned: Status, error: ShelfError) -> Status
    ensures { (text : List ℕ) (before : SinkTold) → Puts text before (K.told report.old) (Err error) → Tells text planned before (K.told report.new) result }
{
    match error {
        ShelfError::Failed if planned.is_report() => tell_fault(report, "report"),
        ShelfError::Failed => planned,
        ShelfError::NoMemory => tell_no_memory(report),
    }
}

fn put_text<K: Sink>(report: &mut K, planned: Status, text: &[u8]) -> Status
    ensures { Tells text.now planned (K.told report.old) (K.told report.new) result }
{
    match report.put(text) {
        Ok(()) => planned,
        Err(error) => tell_error(report, planned, error),
    }
}

/// Tells how the work ended, where `failed` is the name of the file in the last call of the shelf that failed, and
/// gives the program's status.
pub fn tell<K: Sink>(
    end: &Result<Answer, ShelfError>,
    failed: Option<&str>,
    report: &mut K,
) -> Status
    ensures { TellsEnd (option_copied failed.entry) end.now (K.told report.old) (K.told report.new) result }
{
    match end {
        Ok(answer) => put_text(report, answer.status, &answer.report),
        Err(ShelfError::Failed) => tell_fault(report, failed.unwrap_or("")),
        Err(ShelfError::NoMemory) => tell_no_memory(report),
    }
}
