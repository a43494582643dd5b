// A run that is stopped, and one that goes on, each with its value change dump.
ghost use Rattle.std.specs.Prelude.{◌≡◌, ◌<◌, ◌≤◌, [], IfOk, length, map};
ghost use Rattle.sg_io.specs.Faults.{Cause, NamesFault};
ghost use Rattle.sg_io.specs.Files.{BothTell};
ghost use Rattle.sg_stimulus.specs.Applied.{IsApplied};
ghost use Rattle.sg_stimulus.specs.Seen.{stimulus_seen};
ghost use Rattle.time_checks.specs.Seen.{violation_seen};
ghost use Rattle.sim_times.specs.Runs.{CauseOfEnd, NamesFaultOfEnd};
ghost use Rattle.sim_rounds.specs.Moments.{Fits, run_since, run_up_to, snapshot_of};
ghost use Rattle.sim_rounds.specs.MomentsSeen.{moment_seen};
ghost use Rattle.sim_rounds.specs.Setting.{setting_of};
ghost use Rattle.sim_rounds.specs.Stopping.{end_of as end_until, origin_at, setting_since, told_of};
ghost use Rattle.wave_out.specs.Files.{Leaves};
ghost use Rattle.run_report.specs.Spent.{spent_seen};
ghost use Rattle.wave_out.specs.Vcd.{vcd_begun, vcd_rest};
ghost use Rattle.run_dump.specs.RunEnds.{HasReached, HasSimulatedFrom, HasSimulatedUntil, stop_in, violations_of};

use crate::run::{RunEnd, end_of, spent_of, wheel_for};
use run_report::Spent;
use sg_circuit::Circuit;
use sg_io::{Shelf, ShelfError};
use sg_steps::Steps;
use sg_stimulus::Stimulus;
use sg_text::NoMemory;
use sim_rounds::{Finished, Moment, Sim, Until};
use sim_times::Watch;
use std::alloc::Global;
use std::marker::Brand;
use std::sync::ledger::{Blank, Ledger};
use time_checks::Violation;
use wave_out::{RestWriter, VcdWriter};

/// How far a run came that was to be stopped.
#[derive(Debug, Drop)]
pub enum Reached {
    /// To the time at which it was stopped.
    Stop(Moment),
    /// To a time that needed more rounds than the bound.
    Spent(Spent),
}

/// What such a run came to: the violations of the times that ended, and how far it came.
#[derive(Debug, Drop)]
pub struct StopEnd {
    pub violations: Vec<Violation>,
    pub reached: Reached,
}

// The run of a circuit up to a time, told to a watcher. Without memory for the simulator nothing is called.
fn simulate_until<S: Shelf, W: Watch<S>, L: Ledger>(
    alloc: Global,
    circuit: &Circuit,
    stimulus: &Stimulus,
    until: u64,
    bound: u32,
    buckets: u32,
    shelf: &mut S,
    watcher: &mut W,
    blank: Blank,
) -> Result<Until, NoMemory>
    requires name { blank.name ≡ L.name }
    requires parts { blank.parts ≡ L.parts }
    requires some { 0 < blank.parts }
    requires bound { 0 < bound }
    requires some_buckets { 1 ≤ buckets }
    requires most { buckets ≤ 1048576 }
    requires nets { length (W.circuit watcher.old).nets ≤ length circuit.now.nets }
    requires none_told { W.stands watcher.old shelf.old [] }
    requires applied { IsApplied circuit.now (stimulus_seen stimulus.now) }
    requires until { until < stimulus.now.end }
    ensures stopped { HasSimulatedUntil W.stands W.broken watcher.old watcher.new shelf.old shelf.new circuit.now (setting_of circuit.now (record (stimulus_seen stimulus.now) { end = until }) bound) until result }
    ensures cause { IfOk result (λ run. CauseOfEnd (S.fault_count shelf.old) (S.fault_count shelf.new) (end_until run)) }
    ensures named { IfOk result (λ run. NamesFaultOfEnd (W.name watcher.old) (S.last_fault shelf.old) (S.last_fault shelf.new) (end_until run)) }
    ensures name { W.name watcher.new ≡ W.name watcher.old }
    ensures circuit { W.circuit watcher.new ≡ W.circuit watcher.old }
    ensures keeps { IfOk result (λ _. W.keeps watcher.old shelf.old shelf.new) }
{
    let agenda = wheel_for(alloc, circuit, buckets)?;
    let sim = Sim::new(alloc, circuit, agenda)?;
    let mut steps = Steps::<L>::new(blank);
    Ok(sim.run_until(stimulus, until, bound, shelf, watcher, &mut steps))
}

// How far it came. A run that isn't stopped doesn't end whole.
fn reached_by(run: Until) -> Result<StopEnd, ShelfError>
    ensures { result ≡ stop_in run }
{
    match run {
        Until::Paused { moment, tally } => Ok(StopEnd {
            violations: tally.violations,
            reached: Reached::Stop(moment),
        }),
        Until::Ended(finished) => match spent_of(finished.end)? {
            Some(spent) => Ok(StopEnd {
                violations: finished.tally.violations,
                reached: Reached::Spent(spent),
            }),
            None => Err(ShelfError::NoMemory),
        },
    }
}

/// Simulates a circuit under a stimulus as `run_and_dump` does, up to a time before the end, and writes the dump of the
/// times up to there: the end has no line.
///
/// The errors are those of `run_and_dump`.
pub fn stop_and_dump<S: Shelf>(
    alloc: Global,
    circuit: &Circuit,
    stimulus: &Stimulus,
    until: u64,
    bound: u32,
    buckets: u32,
    name: &str,
    shelf: &mut S,
) -> Result<StopEnd, ShelfError>
    requires bound { 0 < bound }
    requires some { 1 ≤ buckets }
    requires most { buckets ≤ 1048576 }
    requires applied { IsApplied circuit.now (stimulus_seen stimulus.now) }
    requires until { until < stimulus.now.end }
    ensures reached { IfOk result (λ end. HasReached circuit.now (run_up_to circuit.now bound (stimulus_seen stimulus.now) until) until end.reached) }
    ensures violations { IfOk result (λ end. map (λ v. violation_seen v) end.violations.items ≡ (run_up_to circuit.now bound (stimulus_seen stimulus.now) until).run.violations) }
    ensures file { BothTell (S.files shelf.old) (S.files shelf.new)
        (Leaves name.now (vcd_begun circuit.now (run_up_to circuit.now bound (stimulus_seen stimulus.now) until)) result) }
    ensures cause { Cause (S.fault_count shelf.old) (S.fault_count shelf.new) result }
    ensures named { NamesFault name.now (S.last_fault shelf.old) (S.last_fault shelf.new) result }
{
    let mut writer = VcdWriter::new(alloc, circuit, name, shelf)?;
    let run = simulate_until::<S, VcdWriter<'_>, Brand>(
        alloc,
        circuit,
        stimulus,
        until,
        bound,
        buckets,
        shelf,
        &mut writer,
        Blank::new(1),
    )?;
    reached_by(run)
}

// The rest of a run from a moment on, told to a watcher. Without memory for the simulator nothing is called.
fn simulate_rest<S: Shelf, W: Watch<S>, L: Ledger>(
    alloc: Global,
    circuit: &Circuit,
    stimulus: &Stimulus,
    moment: &Moment,
    bound: u32,
    buckets: u32,
    shelf: &mut S,
    watcher: &mut W,
    blank: Blank,
) -> Result<Finished, NoMemory>
    requires name { blank.name ≡ L.name }
    requires parts { blank.parts ≡ L.parts }
    requires some { 0 < blank.parts }
    requires bound { 0 < bound }
    requires some_buckets { 1 ≤ buckets }
    requires most { buckets ≤ 1048576 }
    requires nets { length (W.circuit watcher.old).nets ≤ length circuit.now.nets }
    requires told { W.stands watcher.old shelf.old (told_of (moment_seen moment.now)) }
    requires applied { IsApplied circuit.now (stimulus_seen stimulus.now) }
    requires fits { Fits circuit.now (moment_seen moment.now) }
    requires before { moment.now.time < stimulus.now.end }
    ensures ended { HasSimulatedFrom W.stands W.broken watcher.old watcher.new shelf.old shelf.new (setting_since circuit.now (stimulus_seen stimulus.now) bound (moment_seen moment.now))
        (origin_at circuit.now stimulus.now.end (moment_seen moment.now)) result }
    ensures cause { IfOk result (λ f. CauseOfEnd (S.fault_count shelf.old) (S.fault_count shelf.new) f.end) }
    ensures named { IfOk result (λ f. NamesFaultOfEnd (W.name watcher.old) (S.last_fault shelf.old) (S.last_fault shelf.new) f.end) }
    ensures name { W.name watcher.new ≡ W.name watcher.old }
    ensures circuit { W.circuit watcher.new ≡ W.circuit watcher.old }
    ensures keeps { IfOk result (λ _. W.keeps watcher.old shelf.old shelf.new) }
{
    let agenda = wheel_for(alloc, circuit, buckets)?;
    let sim = Sim::resume(alloc, circuit, agenda, moment)?;
    let mut steps = Steps::<L>::new(blank);
    Ok(sim.run(stimulus, bound, shelf, watcher, &mut steps))
}

/// Simulates the rest of a run, from the time after a moment that fits the circuit on, and writes the rest of the dump:
/// what is behind the dump of the times up to the moment. Violations are those of the rest alone.
///
/// The errors are those of `run_and_dump`.
pub fn resume_and_dump<S: Shelf>(
    alloc: Global,
    circuit: &Circuit,
    stimulus: &Stimulus,
    moment: &Moment,
    bound: u32,
    buckets: u32,
    name: &str,
    shelf: &mut S,
) -> Result<RunEnd, ShelfError>
    requires bound { 0 < bound }
    requires some { 1 ≤ buckets }
    requires most { buckets ≤ 1048576 }
    requires applied { IsApplied circuit.now (stimulus_seen stimulus.now) }
    requires fits { Fits circuit.now (moment_seen moment.now) }
    requires before { moment.now.time < stimulus.now.end }
    ensures spent { IfOk result (λ end. spent_seen end.spent ≡ (run_since circuit.now bound (stimulus_seen stimulus.now) (moment_seen moment.now)).spent) }
    ensures violations { IfOk result (λ end. violations_of end ≡ (run_since circuit.now bound (stimulus_seen stimulus.now) (moment_seen moment.now)).run.violations) }
    ensures file { BothTell (S.files shelf.old) (S.files shelf.new)
        (Leaves name.now (vcd_rest circuit.now stimulus.now.end (snapshot_of (moment_seen moment.now)) (run_since circuit.now bound (stimulus_seen stimulus.now) (moment_seen moment.now))) result) }
    ensures cause { Cause (S.fault_count shelf.old) (S.fault_count shelf.new) result }
    ensures named { NamesFault name.now (S.last_fault shelf.old) (S.last_fault shelf.new) result }
{
    let mut writer = RestWriter::new(alloc, circuit, name, shelf, moment.time)?;
    let finished = simulate_rest::<S, RestWriter<'_>, Brand>(
        alloc,
        circuit,
        stimulus,
        moment,
        bound,
        buckets,
        shelf,
        &mut writer,
        Blank::new(1),
    )?;
    end_of(finished)
}
