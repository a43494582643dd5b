// The program round its top call: what it makes of the system's words, and the number with which it ends.
ghost use Rattle.std.specs.Prelude.{◌≡◌};
ghost use Rattle.std.specs.Process.{exit_status};
ghost use Rattle.signoff_phases.specs.Status.{code_of};
ghost use Rattle.why_top.specs.Program.{Ends};

use crate::answer::top;
use sg_io::{Shelf, Sink};
use signoff_phases::{Status, tell_no_memory, words_of};
use std::alloc::Global;
use std::env::Args;
use std::io;
use std::process::ExitCode;

// The status by which the top call ends on these words.
fn status_of<S: Shelf, K: Sink>(
    alloc: Global,
    args: io::Result<Args>,
    shelf: &mut S,
    report: &mut K,
) -> Status
    ensures { Ends args
        (record { files = S.files shelf.old; faults = S.fault_count shelf.old; last = S.last_fault shelf.old })
        (record { files = S.files shelf.new; faults = S.fault_count shelf.new; last = S.last_fault shelf.new })
        (K.told report.old) (K.told report.new) result }
{
    match words_of(alloc, args) {
        Ok(words) => top(alloc, &words, shelf, report),
        Err(_) => tell_no_memory(report),
    }
}

/// Does what the system's words ask for, over this shelf and this sink: what the top call does on the words after the
/// program's name, and the program ends with the number of its status. Where one of the words isn't text there are none.
/// Where there was no memory for them, that is told, the status is that of want of memory, and the shelf isn't called.
pub fn program<S: Shelf, K: Sink>(
    alloc: Global,
    args: io::Result<Args>,
    shelf: &mut S,
    report: &mut K,
) -> ExitCode
    ensures { (how : Status) × (exit_status result ≡ code_of how) × Ends args
        (record { files = S.files shelf.old; faults = S.fault_count shelf.old; last = S.last_fault shelf.old })
        (record { files = S.files shelf.new; faults = S.fault_count shelf.new; last = S.last_fault shelf.new })
        (K.told report.old) (K.told report.new) how }
{
    ExitCode::from(status_of(alloc, args, shelf, report).code())
}
