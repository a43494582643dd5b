// All that the program does.
ghost use Rattle.std.specs.Prelude.{◌≡◌, ◌≢◌, map, string_bytes};
ghost use Rattle.why_words.specs.Words.{asked_of};
ghost use Rattle.why_top.specs.Promises.{Outcome};

use crate::telling::tell;
use crate::work::work;
use sg_io::{Shelf, Sink};
use signoff_phases::Status;
use std::alloc::Global;

/// Does what the words after the program's name ask for: reads the netlist from the shelf, annotates it, reads what drives its
/// inputs, makes the run again, and puts to the sink what a change or a violation in it came from. The status is the program's.
pub fn top<S: Shelf, K: Sink>(
    alloc: Global,
    words: &[String],
    shelf: &mut S,
    report: &mut K,
) -> Status
    // Whatever comes is one case of five, which sees all that the shelf and the sink tell.
    ensures outcome { Outcome (asked_of (map (λ w. string_bytes w) words.now))
        (record { files = S.files shelf.old; faults = S.fault_count shelf.old; last = S.last_fault shelf.old })
        (record { files = S.files shelf.new; faults = S.fault_count shelf.new; last = S.last_fault shelf.new })
        (K.told report.old) (K.told report.new) result }

    // Whatever comes, no file is changed.
    ensures files { S.files shelf.new ≡ S.files shelf.old }

    // No fault of the shelf is passed over.
    ensures counted { result ≢ Status.Fault → S.fault_count shelf.new ≡ S.fault_count shelf.old }
{
    let end = work(alloc, words, shelf);
    tell(alloc, &end, shelf.failed(), report)
}
