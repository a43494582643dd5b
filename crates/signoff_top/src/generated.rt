// The phases of a generated case.
ghost use Rattle.std.specs.Prelude.{◌≤◌, IfErr, IfOk};
ghost use Rattle.sg_stimulus.specs.Applied.{IsApplied};
ghost use Rattle.sg_stimulus.specs.Seen.{stimulus_seen};
ghost use Rattle.signoff_top.specs.Phases.{CaseOutcome};
ghost use Rattle.signoff_phases.specs.Stops.{Gives, NeverFails, SparesWords};
ghost use Rattle.signoff_top.specs.Tasks.{task_seen};

use crate::phases::Task;
use gen_case::{GeneratedCase, gen_case};
use sg_delay::Corner;
use signoff_phases::{Stop, apply_text, netlist_phase, stimulus_phase};
use std::alloc::Global;
use std::slice;

const NETLIST: &str = "generated.v";

const SDF: &str = "generated.sdf";

const STIMULUS: &str = "generated.st";

// As in a run without options.
const ROUNDS: u32 = 10_000;

const WHEEL: u32 = 4096;

/// All phases of the generated case of so many stages up to its run: its texts go through those of files. No file is made.
pub fn case_task<'a>(alloc: Global, stages: u32) -> Result<Task<'a>, Stop<'a>>
    ensures gives { Gives (λ t. task_seen t) (CaseOutcome stages) result }
    ensures applied { IfOk result (λ t. IsApplied t.circuit (stimulus_seen t.input)) }
    ensures ranges { IfOk result (λ t. (1 ≤ t.rounds) × (1 ≤ t.wheel) × (t.wheel ≤ 1048576)) }
    ensures works { NeverFails result }
    ensures words { IfErr result (λ s. SparesWords s) }
{
    let GeneratedCase {
        netlist,
        sdf,
        stimulus,
    } = gen_case(alloc, stages)?;
    let names: [&'a str; 1] = [NETLIST];
    let files = slice::from_ref(&netlist);
    let mut circuit = netlist_phase(alloc, &names, files, None, Corner::Typ)?;
    let unmatched = apply_text(alloc, SDF, &sdf, Corner::Typ, &mut circuit)?;
    let input = stimulus_phase(alloc, STIMULUS, &stimulus, &circuit)?;
    Ok(Task {
        circuit,
        sdf,
        unmatched,
        input,
        rounds: ROUNDS,
        wheel: WHEEL,
        vcd: "",
    })
}
