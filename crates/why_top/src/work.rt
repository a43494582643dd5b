// All that the program does with the shelf.
ghost use Rattle.std.specs.Prelude.{◌≡◌, ◌<◌, List, IfErr, IfOk, Ok, Some, length, map, string_bytes};
ghost use Rattle.sg_io.specs.Faults.{Cause};
ghost use Rattle.sg_io.specs.Files.{File};
ghost use Rattle.sg_stimulus.specs.Applied.{IsApplied};
ghost use Rattle.sg_stimulus.specs.Seen.{stimulus_seen};
ghost use Rattle.signoff_phases.specs.Phases.{WordsOutcome};
ghost use Rattle.signoff_phases.specs.Stops.{Gives, IfFailed, NeverFails, SparesWords, StopWords, end_of_phase};
ghost use Rattle.why_words.specs.Words.{asked_of, names_in, names_of};
ghost use Rattle.why_words.specs.WordsSeen.{asked_seen};
ghost use Rattle.why_top.specs.Answer.{TaskOutcome};
ghost use Rattle.why_top.specs.Seen.{FailsAmong, Gives as GivesAnswer, IsReady, task_seen};

use crate::answers::{Answer, answer_in};
use crate::runs::Task;
use sg_io::Shelf;
use signoff_phases::{Refusal, Stop, annotated_of, input_of};
use std::alloc::Global;
use why_words::{Asked, read_words};

#[tactic(auto, using(crate::proofs::WordsRead::asked_ready))]
fn words_phase<'a>(alloc: Global, words: &'a [String]) -> Result<Asked<'a>, Stop<'a>>
    ensures gives { Gives (λ x. asked_seen x) (WordsOutcome (asked_of (map string_bytes words.now))) result }
    ensures works { NeverFails result }
    ensures words { StopWords (asked_of (map string_bytes words.now)) (λ asked x. asked ≡ asked_seen x) result }
    ensures ready { IfOk result (λ x. IsReady x) }
{
    match read_words(alloc, words)? {
        Some(asked) => Ok(asked),
        None => Err(Stop::Refused(Refusal::Words)),
    }
}

// All phases up to the run: the design, and what drives the inputs.
fn task_of<'a, S: Shelf>(alloc: Global, asked: &Asked<'a>, shelf: &mut S) -> Result<Task, Stop<'a>>
    requires some { 0 < length asked.now.design.netlists.items }
    ensures gives { (files : List File) → S.files shelf.old ≡ Some files → Gives (λ t. task_seen t) (TaskOutcome (asked_seen asked.now) files) result }
    ensures applied { IfOk result (λ t. IsApplied t.circuit (stimulus_seen t.input)) }
    ensures held { S.files shelf.new ≡ S.files shelf.old }
    ensures cause { Cause (S.fault_count shelf.old) (S.fault_count shelf.new) (end_of_phase result) }
    ensures named { IfFailed (FailsAmong (names_of (asked_seen asked.now)) (S.last_fault shelf.new)) result }
    ensures words { IfErr result (λ s. SparesWords s) }
{
    let annotated = annotated_of(alloc, &asked.design, shelf)?;
    let input = input_of(alloc, shelf, asked.input, &annotated.circuit)?;
    Ok(Task {
        circuit: annotated.circuit,
        input,
    })
}

/// Does what the words ask for, but for the telling.
pub fn work<'a, S: Shelf>(
    alloc: Global,
    words: &'a [String],
    shelf: &mut S,
) -> Result<Answer, Stop<'a>>
    ensures right { (files : List File) → S.files shelf.old ≡ Some files → GivesAnswer (asked_of (map string_bytes words.now)) files result }
    ensures held { S.files shelf.new ≡ S.files shelf.old }
    ensures cause { Cause (S.fault_count shelf.old) (S.fault_count shelf.new) (end_of_phase result) }
    ensures named { IfFailed (FailsAmong (names_in (asked_of (map string_bytes words.now))) (S.last_fault shelf.new)) result }
{
    let asked = words_phase(alloc, words)?;
    let task = task_of(alloc, &asked, shelf)?;
    Ok(answer_in(alloc, &task, asked.rounds, asked.question)?)
}
