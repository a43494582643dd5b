// A run, from the first time to its value change dump's last line.
ghost use Rattle.std.specs.Prelude.{◌≡◌, ◌<◌, ◌≤◌, [], IfOk, length, map, replicate};
ghost use Rattle.sg_io.specs.Faults.{Cause, NamesFault};
ghost use Rattle.sg_io.specs.Files.{BothTell};
ghost use Rattle.sg_stimulus.specs.Applied.{IsApplied};
ghost use Rattle.sg_stimulus.specs.Seen.{stimulus_seen};
ghost use Rattle.sg_model.specs.Run.{last_change, lasts};
ghost use Rattle.time_checks.specs.Seen.{violation_seen};
ghost use Rattle.sim_times.specs.Runs.{CauseOfEnd, NamesFaultOfEnd};
ghost use Rattle.sim_times.specs.Times.{count_shown};
ghost use Rattle.sim_rounds.specs.Setting.{setting_of};
ghost use Rattle.sim_rounds.specs.Simulated.{run_of_circuit};
ghost use Rattle.wave_out.specs.Files.{Leaves};
ghost use Rattle.run_report.specs.Spent.{spent_seen};
ghost use Rattle.wave_out.specs.Vcd.{vcd_text};
ghost use Rattle.run_dump.specs.RunEnds.{HasSimulated, IsSpent, end_in, spent_in, violations_of, WatcherFails};

use event_wheel::Wheel;
use run_report::Spent;
use sg_circuit::Circuit;
use sg_io::{MemoryShelf, Shelf, ShelfError};
use sg_steps::Steps;
use sg_stimulus::Stimulus;
use sg_text::NoMemory;
use sim_rounds::{Finished, Sim};
use sim_times::{Quiet, SimEnd, Watch};
use std::alloc::Global;
use std::marker::Brand;
use std::sync::ledger::{Blank, Ledger};
use time_checks::Violation;
use wave_out::VcdWriter;

/// What a run came to: the violations of the times that ended, and the time that needed more rounds than the bound, if
/// there was one.
#[derive(Debug, Drop)]
pub struct RunEnd {
    pub violations: Vec<Violation>,
    pub spent: Option<Spent>,
}

// A wheel of so many buckets for the elements of a circuit, with nothing pending.
pub(super) fn wheel_for(alloc: Global, circuit: &Circuit, buckets: u32) -> Result<Wheel, NoMemory>
    requires some { 1 ≤ buckets }
    requires most { buckets ≤ 1048576 }
    ensures lists { IfOk result (λ wheel. wheel.lists ≡ replicate (length circuit.now.elements) []) }
    ensures buckets { IfOk result (λ wheel. wheel.buckets ≡ buckets) }
{
    Wheel::new(alloc, buckets, circuit.parts().elements.len() as u32)
}

// The run of a circuit, told to a watcher. Without memory for the simulator nothing is called.
fn simulate<S: Shelf, W: Watch<S>, L: Ledger>(
    alloc: Global,
    circuit: &Circuit,
    stimulus: &Stimulus,
    bound: u32,
    buckets: u32,
    shelf: &mut S,
    watcher: &mut W,
    blank: Blank,
) -> Result<Finished, NoMemory>
    requires name { blank.name ≡ L.name }
    requires parts { blank.parts ≡ L.parts }
    requires some { 0 < blank.parts }
    requires bound { 0 < bound }
    requires some_buckets { 1 ≤ buckets }
    requires most { buckets ≤ 1048576 }
    requires nets { length (W.circuit watcher.old).nets ≤ length circuit.now.nets }
    requires none_told { W.stands watcher.old shelf.old [] }
    requires applied { IsApplied circuit.now (stimulus_seen stimulus.now) }
    ensures ended { HasSimulated W.stands W.broken watcher.old watcher.new shelf.old shelf.new (setting_of circuit.now (stimulus_seen stimulus.now) bound) result }
    ensures cause { IfOk result (λ f. CauseOfEnd (S.fault_count shelf.old) (S.fault_count shelf.new) f.end) }
    ensures named { IfOk result (λ f. NamesFaultOfEnd (W.name watcher.old) (S.last_fault shelf.old) (S.last_fault shelf.new) f.end) }
    ensures name { W.name watcher.new ≡ W.name watcher.old }
    ensures circuit { W.circuit watcher.new ≡ W.circuit watcher.old }
    ensures keeps { IfOk result (λ _. W.keeps watcher.old shelf.old shelf.new) }
{
    let agenda = wheel_for(alloc, circuit, buckets)?;
    let sim = Sim::new(alloc, circuit, agenda)?;
    let mut steps = Steps::<L>::new(blank);
    Ok(sim.run(stimulus, bound, shelf, watcher, &mut steps))
}

// The time that was spent, if the run came to an end.
pub(super) fn spent_of(end: Result<(), SimEnd>) -> Result<Option<Spent>, ShelfError>
    ensures { result ≡ spent_in end }
{
    match end {
        Ok(()) => Ok(None),
        Err(SimEnd::RoundsSpent { time, net }) => Ok(Some(Spent { time, net })),
        Err(SimEnd::WatchFailed) => Err(ShelfError::Failed),
        Err(SimEnd::NoMemory) => Err(ShelfError::NoMemory),
    }
}

// What a run came to that was dumped.
pub(super) fn end_of(finished: Finished) -> Result<RunEnd, ShelfError>
    ensures { result ≡ end_in finished }
{
    let spent = spent_of(finished.end)?;
    Ok(RunEnd {
        violations: finished.tally.violations,
        spent,
    })
}

/// Simulates a circuit under a stimulus, with at most `bound` rounds a time, and writes the file `name`. The answer
/// tells a time that needed more rounds; the file then ends before it.
///
/// What is pending stands in a wheel of so many `buckets`, from 1 to 1048576. Neither the dump nor the answer depends on
/// them.
///
/// `Failed` where a call on the shelf failed, and `NoMemory` for want of memory. The file then has the first bytes of the
/// dump, or is as it was.
pub fn run_and_dump<S: Shelf>(
    alloc: Global,
    circuit: &Circuit,
    stimulus: &Stimulus,
    bound: u32,
    buckets: u32,
    name: &str,
    shelf: &mut S,
) -> Result<RunEnd, ShelfError>
    requires bound { 0 < bound }
    requires some { 1 ≤ buckets }
    requires most { buckets ≤ 1048576 }
    requires applied { IsApplied circuit.now (stimulus_seen stimulus.now) }
    ensures spent { IfOk result (λ end. spent_seen end.spent ≡ (run_of_circuit circuit.now bound (stimulus_seen stimulus.now)).spent) }
    ensures violations { IfOk result (λ end. violations_of end ≡ (run_of_circuit circuit.now bound (stimulus_seen stimulus.now)).run.violations) }

    // The file holds the dump of the definition's run, or after a failure or for want of memory its first bytes.
    ensures file { BothTell (S.files shelf.old) (S.files shelf.new)
        (Leaves name.now (vcd_text circuit.now stimulus.now.end (run_of_circuit circuit.now bound (stimulus_seen stimulus.now))) result) }

    ensures cause { Cause (S.fault_count shelf.old) (S.fault_count shelf.new) result }
    ensures named { NamesFault name.now (S.last_fault shelf.old) (S.last_fault shelf.new) result }
{
    let mut writer = VcdWriter::new(alloc, circuit, name, shelf)?;
    let finished = simulate::<S, VcdWriter<'_>, Brand>(
        alloc,
        circuit,
        stimulus,
        bound,
        buckets,
        shelf,
        &mut writer,
        Blank::new(1),
    )?;
    end_of(finished)
}

// The time that was spent in a run whose watcher can't fail.
fn spent_unwatched(end: Result<(), SimEnd>) -> Result<Option<Spent>, NoMemory>
    requires { WatcherFails end → ⊥ }
    ensures { IfOk result (λ spent. IsSpent spent end) }
{
    match spent_of(end) {
        Ok(spent) => Ok(spent),
        Err(ShelfError::Failed | ShelfError::NoMemory) => Err(NoMemory),
    }
}

/// What a run that nobody watches came to.
#[derive(Debug, Drop)]
pub struct QuietEnd {
    pub violations: Vec<Violation>,
    /// How many elements were evaluated, up to 2^64 - 1.
    pub evaluations: u64,
    /// The last time that changed a net, in ticks; 0 where none did.
    pub last: u64,
    pub spent: Option<Spent>,
}

/// Simulates a circuit under a stimulus, as `run_and_dump` does, and writes nothing.
///
/// `NoMemory` for want of memory.
pub fn run_quietly(
    alloc: Global,
    circuit: &Circuit,
    stimulus: &Stimulus,
    bound: u32,
    buckets: u32,
) -> Result<QuietEnd, NoMemory>
    requires bound { 0 < bound }
    requires some { 1 ≤ buckets }
    requires most { buckets ≤ 1048576 }
    requires applied { IsApplied circuit.now (stimulus_seen stimulus.now) }
    ensures spent { IfOk result (λ end. spent_seen end.spent ≡ (run_of_circuit circuit.now bound (stimulus_seen stimulus.now)).spent) }
    ensures violations { IfOk result (λ end. map (λ v. violation_seen v) end.violations.items ≡ (run_of_circuit circuit.now bound (stimulus_seen stimulus.now)).run.violations) }
    ensures evaluations { IfOk result (λ end. end.evaluations ≡ count_shown (run_of_circuit circuit.now bound (stimulus_seen stimulus.now)).evaluations) }
    ensures last { IfOk result (λ end. end.last ≡ last_change (setting_of circuit.now (stimulus_seen stimulus.now) bound).first.values (lasts (run_of_circuit circuit.now bound (stimulus_seen stimulus.now)).run.snapshots)) }
{
    let mut shelf = MemoryShelf::new(alloc);
    let finished = simulate::<MemoryShelf, Quiet, Brand>(
        alloc,
        circuit,
        stimulus,
        bound,
        buckets,
        &mut shelf,
        &mut Quiet,
        Blank::new(1),
    )?;
    let spent = spent_unwatched(finished.end)?;
    let tally = finished.tally;
    Ok(QuietEnd {
        violations: tally.violations,
        evaluations: tally.evaluations,
        last: tally.last,
        spent,
    })
}
