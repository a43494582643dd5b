// The run of a task.
ghost use Rattle.std.specs.Prelude.{◌<◌, IfOk};
ghost use Rattle.sg_stimulus.specs.Applied.{IsApplied};
ghost use Rattle.sg_stimulus.specs.Seen.{stimulus_seen};
ghost use Rattle.why_top.specs.Seen.{IsRunOf, task_seen};

use sg_circuit::Circuit;
use sg_stimulus::Stimulus;
use sg_text::NoMemory;
use std::alloc::Global;
use why_history::{Watched, watch};

/// What is run.
#[derive(Drop)]
pub struct Task {
    pub circuit: Circuit,
    pub input: Stimulus,
}

/// Runs a task with at most so many rounds a time, and keeps each change. Takes memory of 16 bytes a change.
pub fn run_of(alloc: Global, task: &Task, rounds: u32) -> Result<Watched, NoMemory>
    requires rounds { 0 < rounds }
    requires applied { IsApplied task.now.circuit (stimulus_seen task.now.input) }
    ensures { IfOk result (λ run. IsRunOf (task_seen task.now) rounds run) }
{
    watch(alloc, &task.circuit, &task.input, rounds)
}
