// Runs that are stopped and saved, and runs that go on from a save.
ghost use Rattle.std.specs.Prelude.{◌≡◌, ◌≤◌, ◌<◌, ℕ, List, Ok, Some, IfErr, IfOk, length};
ghost use Rattle.sg_io.specs.Faults.{Cause};
ghost use Rattle.sg_io.specs.Files.{File};
ghost use Rattle.sg_circuit.specs.Closed.{IsClosed};
ghost use Rattle.sg_stimulus.specs.Applied.{IsApplied};
ghost use Rattle.sg_stimulus.specs.Seen.{stimulus_seen};
ghost use Rattle.sim_rounds.specs.Moments.{Fits};
ghost use Rattle.sim_rounds.specs.MomentsSeen.{moment_seen};
ghost use Rattle.run_words.specs.Words.{a_rest, asked_of};
ghost use Rattle.run_words.specs.WordsSeen.{command_seen};
ghost use Rattle.signoff_top.specs.Phases.{CommandOutcome, RestOutcome, SaveOutcome, Task as TheTask};
ghost use Rattle.signoff_top.specs.Promises.{NamesFaultAt};
ghost use Rattle.signoff_phases.specs.Stops.{Gives, IfFailed, NeverFails, SparesWords, UnlessCut, end_of_phase};
ghost use Rattle.signoff_top.specs.Tasks.{IsSound, rest_seen};

use crate::phases::{Task, task_of};
use run_words::Command;
use sg_circuit::Circuit;
use sg_io::Shelf;
use sg_text::Refused;
use signoff_phases::{Refusal, Stop, file_within};
use sim_rounds::Moment;
use sim_save::read_save;
use std::alloc::Global;

/// What is run from a moment on.
#[derive(Drop)]
pub struct Rest<'a> {
    pub task: Task<'a>,
    pub moment: Moment,
}

// One byte more than a saved moment may have.
const SAVE_LIMIT: u64 = (1 << 30) + 1;

// The moment that the text of the file of this name says, for a circuit and a run with this end.
fn save_phase<'a>(
    alloc: Global,
    name: &'a str,
    text: &[u8],
    circuit: &Circuit,
    end: u64,
) -> Result<Moment, Stop<'a>>
    ensures gives { Gives (λ m. moment_seen m) (SaveOutcome name.now text.now circuit.now end) result }
    ensures works { NeverFails result }
    ensures words { IfErr result (λ s. SparesWords s) }
{
    match read_save(alloc, text, circuit, end) {
        Ok(moment) => Ok(moment),
        Err(Refused::Fault { kind, place }) => {
            let line = place.line_of(text);
            Err(Stop::Refused(Refusal::Save { name, line, kind }))
        }
        Err(Refused::NoMemory) => Err(Stop::NoMemory),
    }
}

// The parts of a circuit fit together.
fn recall_closed(circuit: &Circuit)
    ensures { IsClosed circuit.now }
{
    let _ = circuit.parts();
}

/// All phases of the rest of a run up to it: those of the run, and the saved moment.
pub fn rest_of<'a, S: Shelf>(
    alloc: Global,
    command: &Command<'a>,
    state: &'a str,
    shelf: &mut S,
) -> Result<Rest<'a>, Stop<'a>>
    requires ranges { (1 ≤ command.now.rounds) × (1 ≤ command.now.wheel) × (command.now.wheel ≤ 1048576) }
    requires some { 0 < length command.now.design.netlists.items }
    ensures gives { (files : List File) → S.files shelf.old ≡ Some files
        → Gives (λ r. rest_seen r) (RestOutcome (command_seen command.now) state.now files) result }
    ensures sound { (files : List File) (task : TheTask) → S.files shelf.old ≡ Some files → CommandOutcome (command_seen command.now) files (Ok task) → UnlessCut (IsSound task) result }
    ensures applied { IfOk result (λ r. IsApplied r.task.circuit (stimulus_seen r.task.input)) }
    ensures ranges { IfOk result (λ r. (1 ≤ r.task.rounds) × (1 ≤ r.task.wheel) × (r.task.wheel ≤ 1048576)) }
    ensures fits { IfOk result (λ r. Fits r.task.circuit (moment_seen r.moment)) }
    ensures before { IfOk result (λ r. r.moment.time < r.task.input.end) }
    ensures held { S.files shelf.new ≡ S.files shelf.old }
    ensures cause { Cause (S.fault_count shelf.old) (S.fault_count shelf.new) (end_of_phase result) }
    ensures named { (ws : List (List ℕ)) → asked_of ws ≡ Some (a_rest (command_seen command.now) state.now)
        → IfFailed (NamesFaultAt ws (S.files shelf.old) (S.files shelf.new) (S.last_fault shelf.new)) result }
    ensures words { IfErr result (λ s. SparesWords s) }
    ensures vcd { IfOk result (λ r. r.task.vcd.now ≡ (command_seen command.now).vcd) }
{
    let task = task_of(alloc, command, shelf)?;
    recall_closed(&task.circuit);
    let text = file_within(alloc, shelf, state, SAVE_LIMIT)?;
    let moment = save_phase(alloc, state, &text, &task.circuit, task.input.end)?;
    Ok(Rest { task, moment })
}
