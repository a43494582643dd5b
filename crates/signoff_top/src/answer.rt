// All that the program does.
ghost use Rattle.std.specs.Prelude.{◌≡◌, ◌≢◌, ℕ, List, Some, map, string_bytes};
ghost use Rattle.sg_io.specs.Files.{BothTell, File};
ghost use Rattle.sg_io.specs.Faults.{Rose};
ghost use Rattle.run_words.specs.Words.{asked_of, made_in};
ghost use Rattle.signoff_top.specs.Answer.{Answer, IsAnswer};
ghost use Rattle.signoff_top.specs.Promises.{IsExact, IsRight, IsStatusOf, IsUsage, KeepsByAnswer, KeepsByWords, Outcome, ResumesWhole};
ghost use Rattle.signoff_phases.specs.Status.{IsDecided, IsRunEnd};

use crate::report::tell;
use crate::work::work;
use sg_io::{Shelf, Sink};
use signoff_phases::Status;
use std::alloc::Global;

/// Does what the words after the program's name ask for: reads the netlist from the shelf, annotates it with the delays and
/// limits of the SDF file where one is named, reads the stimulus, simulates, whole, up to a stop, which is saved, or from a
/// save on, writes the value change dump to the shelf, and puts the report to the sink; or reads and annotates, and puts the
/// settle bounds; or makes the generated case, simulates it, and puts its summary. The status is the program's.
pub fn top<S: Shelf, K: Sink>(
    alloc: Global,
    words: &[String],
    shelf: &mut S,
    report: &mut K,
) -> Status
    // Where want of memory isn't told and neither count of faults rose, the status, the files and the report are exactly those
    // of the definition.
    ensures headline { (files : List File) (held : List ℕ) → S.files shelf.old ≡ Some files → (K.told report.old).contents ≡ Some held
        → result ≢ Status.NoMemory
        → (Rose (S.fault_count shelf.old) (S.fault_count shelf.new) → ⊥)
        → (Rose (K.told report.old).faults (K.told report.new).faults → ⊥)
        → IsExact (map (λ w. string_bytes w) words.now) result files held (S.files shelf.new) (K.told report.new).contents }

    // Whatever comes is one case of five, which sees all that the shelf and the sink tell.
    ensures outcome { Outcome (map (λ w. string_bytes w) words.now)
        (record { files = S.files shelf.old; faults = S.fault_count shelf.old; last = S.last_fault shelf.old })
        (record { files = S.files shelf.new; faults = S.fault_count shelf.new; last = S.last_fault shelf.new })
        (K.told report.old) (K.told report.new) result }

    // Every status but those of a fault and of want of memory is that of the definition, and so are the files.
    ensures answer { IsDecided result → (text : List ℕ) × BothTell (S.files shelf.old) (S.files shelf.new) (IsRight (map (λ w. string_bytes w) words.now) result text) }

    // The status of the definition comes, unless to a fault or to want of memory.
    ensures exact { (files : List File) (answer : Answer) → S.files shelf.old ≡ Some files
        → IsAnswer (map (λ w. string_bytes w) words.now) files answer → IsStatusOf answer result }

    // Refused words are told by the words alone.
    ensures usage { IsUsage (asked_of (map (λ w. string_bytes w) words.now)) result }

    // Whatever comes, the files are as before, but for those that are made, of which the last that was begun has the first bytes
    // of its text.
    ensures kept { BothTell (S.files shelf.old) (S.files shelf.new) (KeepsByAnswer (map (λ w. string_bytes w) words.now)) }
    ensures others { BothTell (S.files shelf.old) (S.files shelf.new) (KeepsByWords (made_in (asked_of (map (λ w. string_bytes w) words.now)))) }

    // A run that goes on from a save: the dump and the violations of the stopped run, and those that are made now, are those of
    // the whole run.
    ensures resumed { IsDecided result → (files : List File) → S.files shelf.old ≡ Some files → ResumesWhole (map (λ w. string_bytes w) words.now) files }

    // No fault of the shelf is passed over, and none of the sink at the end of a run.
    ensures counted { result ≢ Status.Fault → S.fault_count shelf.new ≡ S.fault_count shelf.old }
    ensures run_end { IsRunEnd result → (K.told report.new).faults ≡ (K.told report.old).faults }
{
    let end = work(alloc, words, shelf);
    tell(alloc, &end, shelf.failed(), report)
}
