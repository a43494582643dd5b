// The phases of a command up to its run.
ghost use Rattle.std.specs.Prelude.{◌≡◌, ◌≤◌, ◌<◌, ℕ, List, Some, IfErr, IfOk, length, map, string_bytes};
ghost use Rattle.sg_io.specs.Faults.{Cause};
ghost use Rattle.sg_io.specs.Files.{File};
ghost use Rattle.sg_stimulus.specs.Applied.{IsApplied};
ghost use Rattle.sg_stimulus.specs.Seen.{stimulus_seen};
ghost use Rattle.run_words.specs.Words.{Asked as Asking, asked_of, command_of};
ghost use Rattle.run_words.specs.WordsSeen.{asked_seen, command_seen};
ghost use Rattle.signoff_phases.specs.Phases.{WordsOutcome};
ghost use Rattle.signoff_top.specs.Phases.{CommandOutcome};
ghost use Rattle.signoff_top.specs.Promises.{NamesFaultAt};
ghost use Rattle.signoff_phases.specs.Stops.{Gives, IfFailed, NeverFails, SparesWords, StopWords, end_of_phase};
ghost use Rattle.signoff_top.specs.Tasks.{IsReady, task_seen};

use run_words::{Asked, Command, read_words};
use sdf_annotate::Unmatched;
use sg_circuit::Circuit;
use sg_io::Shelf;
use sg_stimulus::Stimulus;
use signoff_phases::{Refusal, Stop, annotated_of, input_of};
use std::alloc::Global;

/// What is run, with at most so many rounds a time, over an event wheel of so many buckets; the SDF file's bytes, and its
/// entries that matched nothing, both empty where there is no such file; and the name of the file that is made.
#[derive(Drop)]
pub struct Task<'a> {
    pub circuit: Circuit,
    pub sdf: Vec<u8>,
    pub unmatched: Vec<Unmatched>,
    pub input: Stimulus,
    pub rounds: u32,
    pub wheel: u32,
    pub vcd: &'a str,
}

/// What the words ask for.
#[tactic(auto, using(crate::proofs::WordsRead::asked_ready))]
pub fn words_phase<'a>(alloc: Global, words: &'a [String]) -> Result<Asked<'a>, Stop<'a>>
    ensures gives { Gives (λ x. asked_seen x) (WordsOutcome (asked_of (map (λ w. string_bytes w) words.now))) result }
    ensures works { NeverFails result }
    ensures words { StopWords (asked_of (map (λ w. string_bytes w) words.now)) (λ asked x. asked ≡ asked_seen x) result }
    ensures ready { IfOk result (λ x. IsReady x) }
{
    match read_words(alloc, words)? {
        Some(asked) => Ok(asked),
        None => Err(Stop::Refused(Refusal::Words)),
    }
}

/// All phases of a command up to its run: the design, and what drives the inputs.
pub fn task_of<'a, S: Shelf>(
    alloc: Global,
    command: &Command<'a>,
    shelf: &mut S,
) -> Result<Task<'a>, Stop<'a>>
    requires ranges { (1 ≤ command.now.rounds) × (1 ≤ command.now.wheel) × (command.now.wheel ≤ 1048576) }
    requires some { 0 < length command.now.design.netlists.items }
    ensures gives { (files : List File) → S.files shelf.old ≡ Some files
        → Gives (λ t. task_seen t) (CommandOutcome (command_seen command.now) files) result }
    ensures applied { IfOk result (λ t. IsApplied t.circuit (stimulus_seen t.input)) }
    ensures ranges { IfOk result (λ t. (1 ≤ t.rounds) × (1 ≤ t.wheel) × (t.wheel ≤ 1048576)) }
    ensures held { S.files shelf.new ≡ S.files shelf.old }
    ensures cause { Cause (S.fault_count shelf.old) (S.fault_count shelf.new) (end_of_phase result) }
    ensures named { (ws : List (List ℕ)) (asked : Asking) → asked_of ws ≡ Some asked → command_of asked ≡ Some (command_seen command.now)
        → IfFailed (NamesFaultAt ws (S.files shelf.old) (S.files shelf.new) (S.last_fault shelf.new)) result }
    ensures words { IfErr result (λ s. SparesWords s) }
    ensures vcd { IfOk result (λ t. t.vcd.now ≡ (command_seen command.now).vcd) }
{
    let annotated = annotated_of(alloc, &command.design, shelf)?;
    let input = input_of(alloc, shelf, command.input, &annotated.circuit)?;
    Ok(Task {
        circuit: annotated.circuit,
        sdf: annotated.sdf,
        unmatched: annotated.unmatched,
        input,
        rounds: command.rounds,
        wheel: command.wheel,
        vcd: command.vcd,
    })
}
