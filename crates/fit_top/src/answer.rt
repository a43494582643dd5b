// All that the program does.
ghost use Rattle.std.specs.Prelude.{◌≡◌, ◌≢◌, Some, map, string_bytes};
ghost use Rattle.sg_io.specs.Faults.{Cause};
ghost use Rattle.sg_io.specs.Files.{BothTell};
ghost use Rattle.fit_words.specs.Words.{asked_of};
ghost use Rattle.fit_words.specs.WordsSeen.{asked_seen};
ghost use Rattle.fit_top.specs.Promises.{IsFolderOf, OthersStay, Outcome, made_in};
ghost use Rattle.fit_top.specs.Status.{IsRefusal};
ghost use Rattle.fit_top.specs.Stops.{IfFailed, IfFolder, end_of, folder_end};
ghost use Rattle.fit_top.specs.Work.{IsNamed, WorkLeaves};

use crate::answers::{Answer, answer_for, usage_answer};
use crate::folders::Folders;
use crate::making::make_all;
use crate::report::tell;
use crate::status::Status;
use crate::stop::Stop;
use fit_words::{Asked, read_words};
use sg_io::{Shelf, Sink};
use std::alloc::Global;

/// A status, and what is told with it.
#[derive(Drop)]
pub struct Told {
    pub status: Status,
    pub text: Vec<u8>,
}

fn told_of(answer: Answer) -> Told
    ensures status { result.status ≡ answer.status }
    ensures text { result.text.items ≡ answer.report.items }
{
    Told {
        status: answer.status,
        text: answer.report,
    }
}

// Finds the answer to what is asked, and makes its files.
fn work_for<'a, S: Shelf, F: Folders>(
    alloc: Global,
    asked: &Asked<'a>,
    shelf: &mut S,
    folders: &mut F,
) -> Result<Told, Stop<'a>>
    ensures left { BothTell (S.files shelf.old) (S.files shelf.new) (WorkLeaves (Some (asked_seen asked.now)) (F.meeting folders.old) result) }
    ensures cause { Cause (S.fault_count shelf.old) (S.fault_count shelf.new) (end_of result) }
    ensures folders { Cause (F.fault_count folders.old) (F.fault_count folders.new) (folder_end result) }
    ensures folder { IfFolder (IsFolderOf (Some (asked_seen asked.now))) result }
    ensures named { IfFailed (IsNamed (Some (asked_seen asked.now)) (S.files shelf.old) (S.last_fault shelf.new)) result }
{
    let answer = answer_for(alloc, asked, shelf, folders)?;
    make_all(shelf, folders, asked.out, &answer.made)?;
    Ok(told_of(answer))
}

// Does what the words ask for, but for the report.
fn work<'a, S: Shelf, F: Folders>(
    alloc: Global,
    words: &'a [String],
    shelf: &mut S,
    folders: &mut F,
) -> Result<Told, Stop<'a>>
    ensures left { BothTell (S.files shelf.old) (S.files shelf.new) (WorkLeaves (asked_of (map (λ w. string_bytes w) words.now)) (F.meeting folders.old) result) }
    ensures cause { Cause (S.fault_count shelf.old) (S.fault_count shelf.new) (end_of result) }
    ensures folders { Cause (F.fault_count folders.old) (F.fault_count folders.new) (folder_end result) }
    ensures folder { IfFolder (IsFolderOf (asked_of (map (λ w. string_bytes w) words.now))) result }
    ensures named { IfFailed (IsNamed (asked_of (map (λ w. string_bytes w) words.now)) (S.files shelf.old) (S.last_fault shelf.new)) result }
{
    let Some(asked) = read_words(alloc, words)? else {
        return Ok(told_of(usage_answer(alloc)?));
    };
    work_for(alloc, &asked, shelf, folders)
}

/// Does what the words after the program's name ask for: reads the netlist and the SDF files from the shelf, finds the changes by which
/// the netlist is taken, makes the folder and in it all files with their changes, and puts the report of the changes to the sink. The
/// status is the program's.
pub fn top<S: Shelf, F: Folders, K: Sink>(
    alloc: Global,
    words: &[String],
    shelf: &mut S,
    folders: &mut F,
    report: &mut K,
) -> Status
    // Whatever comes is one case of six, which sees all that the shelf, the folders and the sink tell.
    ensures outcome { Outcome (asked_of (map (λ w. string_bytes w) words.now)) (F.meeting folders.old)
        (record { files = S.files shelf.old; faults = S.fault_count shelf.old; last = S.last_fault shelf.old })
        (record { files = S.files shelf.new; faults = S.fault_count shelf.new; last = S.last_fault shelf.new })
        (F.fault_count folders.old) (F.fault_count folders.new) (K.told report.old) (K.told report.new) result }

    // Whatever comes, the files are as before, but for those in the folder that have the names of files that are read.
    ensures others { BothTell (S.files shelf.old) (S.files shelf.new) (OthersStay (made_in (asked_of (map (λ w. string_bytes w) words.now)))) }

    // A refusal leaves all files as before.
    ensures refused { IsRefusal result → BothTell (S.files shelf.old) (S.files shelf.new) (λ before after. after ≡ before) }

    // No fault of the shelf or of the folders is passed over.
    ensures counted { result ≢ Status.Fault → (S.fault_count shelf.new ≡ S.fault_count shelf.old) × (F.fault_count folders.new ≡ F.fault_count folders.old) }
{
    let end = work(alloc, words, shelf, folders);
    tell(&end, shelf.failed(), report)
}
