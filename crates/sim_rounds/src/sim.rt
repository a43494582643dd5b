// The simulator of a circuit.
ghost use Rattle.std.specs.Prelude.{◌≡◌, [], IfOk, map, take};
ghost use Rattle.std.specs.Coded.{Coded-set, coded_ℕ};
ghost use Rattle.std.proofs.Props.{props};
ghost use Rattle.cond_expr.specs.Codes.{coded_cond};
ghost use Rattle.time_checks.specs.Seen.{violation_seen};
ghost use Rattle.sim_rounds.specs.Engines.{AreChecksAt, IsEngineAt};
ghost use Rattle.sim_machine.specs.Simulated.{first_state, first_value_of};
ghost use Rattle.sg_circuit.specs.Closed.{IsClosed};

use crate::circuit_checks::CircuitChecks;
use crate::engine::Engine;
use crate::laws::moments_of_runs_fit;
use crate::moments::Moment;
use crate::pausing::stop;
use crate::restoring::{add_pending, elements_of, nets_of};
use crate::resumed::Resumed;
use crate::stops::Until;
use fan_round::{Nets, WorkList};
use immediate_list::Immediate;
use pulse_list::Agenda;
use sg_circuit::{Circuit, Driver, Element, FanOut, Net, NetId};
use sg_io::Shelf;
use sg_logic::Value;
use sg_steps::Steps;
use sg_stimulus::Stimulus;
use sg_text::NoMemory;
use sim_machine::CircuitElements;
use sim_times::{SimEnd, Simulation, Told, Watch, make_times, make_times_until};
use std::alloc::Global;
use std::sync::ledger::Ledger;
use time_checks::Violation;

/// What a run found: the violations of the times that ended, how many elements were evaluated, up to 2^64 - 1, and
/// the last time, in ticks, that changed a net.
#[derive(Debug, Drop)]
pub struct Tally {
    pub violations: Vec<Violation>,
    pub evaluations: u64,
    pub last: u64,
}

/// How a run ended, and what it found.
#[derive(Debug, Drop)]
pub struct Finished {
    pub end: Result<(), SimEnd>,
    pub tally: Tally,
}

/// The value of a net before time 0: of a driven one x, and of every other z.
pub fn first_value(driver: Driver) -> Value
    ensures { result ≡ first_value_of driver }
{
    match driver {
        Driver::Nobody => Value::Z,
        Driver::Stimulus | Driver::Element(_) | Driver::Notifier => Value::X,
    }
}

fn first_values(alloc: Global, nets: &[Net]) -> Result<Vec<Value>, NoMemory>
    ensures { IfOk result (λ v. v.items ≡ map (λ net. first_value_of net.driver) nets.now) }
{
    Ok(
        nets.iter()
            .map(|net| first_value(net.driver))
            .collect(alloc)?,
    )
}

// The net that each element drives.
fn outputs_of(alloc: Global, elements: &[Element]) -> Result<Vec<NetId>, NoMemory>
    ensures { IfOk result (λ v. v.items ≡ map (λ e. e.output) elements.now) }
{
    Ok(
        elements
            .iter()
            .map(|element| element.output)
            .collect(alloc)?,
    )
}

/// The parts of a circuit fit together.
pub fn recall_closed(circuit: &Circuit)
    ensures { IsClosed circuit.now }
{
    let _ = circuit.parts();
}

/// What a simulation found in the times that ended.
pub fn tally_of<A: Drop, E: Drop, C: Drop>(simulation: Simulation<'_, A, E, C>) -> Tally
    ensures violations { map (λ v. violation_seen v) result.violations.items ≡ take simulation.entry.ended (map (λ v. violation_seen v) simulation.entry.violations.items) }
    ensures evaluations { result.evaluations ≡ simulation.entry.evaluations }
    ensures last { result.last ≡ simulation.entry.last }
{
    let Simulation {
        nets: _,
        told: _,
        work: _,
        elements: _,
        agenda: _,
        checks: _,
        fan: _,
        outputs: _,
        stimulus: _,
        handed: _,
        mut violations,
        ended,
        evaluations,
        changes: _,
        last,
    } = simulation;
    violations.truncate(ended);
    Tally {
        violations,
        evaluations,
        last,
    }
}

/// A circuit before time 0.
#[derive(Drop)]
pub struct Sim<'a, A: Agenda> {
    circuit: &'a Circuit,
    engine: Engine<'a, Immediate<A>>,
    ghost unseen: { AreChecksAt circuit.now [] [] engine.checks.checks.now engine.checks.checker engine.checks.touched engine.checks.named } by { Prim.hlevel (props, Coded-set (coded_cond coded_ℕ)) },
    ghost fresh: { IsEngineAt circuit.now [] (first_state circuit.now) engine.nets engine.told engine.work engine.elements engine.agenda.0 engine.fan engine.outputs.items },
}

impl<'a, A: Agenda + Drop> Sim<'a, A> {
    ghost use Rattle.std.specs.Prelude.{◌≡◌, ◌-◌, ◌<◌, ◌≤◌, ◌^◌, [], IfOk, length, map, replicate};
    ghost use Rattle.sg_stimulus.specs.Applied.{IsApplied};
    ghost use Rattle.sg_stimulus.specs.Seen.{stimulus_seen};
    ghost use Rattle.sim_times.specs.Runs.{CauseOfEnd, HasEnded, NamesFaultOfEnd, origin_of};
    ghost use Rattle.sim_rounds.specs.Moments.{Fits};
    ghost use Rattle.sim_rounds.specs.MomentsSeen.{moment_seen};
    ghost use Rattle.sim_rounds.specs.Setting.{setting_of};
    ghost use Rattle.sim_rounds.specs.Stopping.{HasStopped, end_of};
    ghost use Rattle.sim_times.specs.Times.{count_shown};

    /// A circuit before time 0, with an agenda on which nothing is pending. Takes memory in proportion to the circuit.
    pub fn new(alloc: Global, circuit: &'a Circuit, agenda: A) -> Result<Sim<'a, A>, NoMemory>
        requires { A.lists agenda ≡ replicate (length circuit.now.elements) [] }
        ensures { IfOk result (λ sim. sim.circuit.now ≡ circuit.now) }
    {
        let parts = circuit.parts();
        let drivers = parts.elements.len() as u32;
        let agenda = Immediate::new(alloc, agenda, drivers)?;
        let values = first_values(alloc, &parts.nets)?;
        let nets = Nets::new(alloc, &values)?;
        let told = Told::new(alloc, &values)?;
        let work = WorkList::new(alloc, drivers)?;
        let elements = CircuitElements::new(alloc, circuit)?;
        let fan = FanOut::build(alloc, circuit)?;
        let outputs = outputs_of(alloc, &parts.elements)?;
        let checks = CircuitChecks::new(alloc, circuit)?;
        Ok(Sim {
            circuit,
            engine: Engine {
                alloc,
                nets,
                told,
                work,
                elements,
                agenda,
                fan,
                outputs,
                checks,
            },
        })
    }

    /// Makes the run of the circuit under a stimulus, from time 0 to the stimulus's end or to a time that needs more
    /// rounds than so many, and tells the watcher, who was told nothing yet: at time 0, at each later time whose nets
    /// differ from those of the time before, with exactly these nets, and at the end.
    ///
    /// The counter rises by one for each element that is evaluated: in the first round of time 0 by all, in a later
    /// round by those with an input that changed in it.
    pub fn run<S: Shelf, W: Watch<S>, L: Ledger>(
        self,
        stimulus: &Stimulus,
        rounds: u32,
        shelf: &mut S,
        watcher: &mut W,
        steps: &mut Steps<L>,
    ) -> Finished
        requires rounds { 0 < rounds }
        requires nets { length (W.circuit watcher.old).nets ≤ length self.circuit.now.nets }
        requires none_told { W.stands watcher.old shelf.old [] }
        requires stimulus { IsApplied self.circuit.now (stimulus_seen stimulus.now) }
        ensures ended { HasEnded W.stands W.broken watcher.old watcher.new shelf.old shelf.new (setting_of self.entry.circuit.now (stimulus_seen stimulus.now) rounds)
            (map (λ v. violation_seen v) result.tally.violations.items) result.tally.last (steps.new - steps.old) result.end }
        ensures evaluations { result.tally.evaluations ≡ count_shown (steps.new - steps.old) }
        ensures steps { steps.old ≤ steps.new }
        ensures cause { CauseOfEnd (S.fault_count shelf.old) (S.fault_count shelf.new) result.end }
        ensures named { NamesFaultOfEnd (W.name watcher.old) (S.last_fault shelf.old) (S.last_fault shelf.new) result.end }
        ensures name { W.name watcher.new ≡ W.name watcher.old }
        ensures circuit { W.circuit watcher.new ≡ W.circuit watcher.old }
        ensures keeps { W.keeps watcher.old shelf.old shelf.new }
    {
        recall_closed(self.circuit);
        let Sim { circuit: _, engine } = self;
        let mut simulation = engine.simulate(stimulus, 0);
        let end = make_times(
            &mut simulation,
            0,
            stimulus.end,
            rounds,
            shelf,
            watcher,
            steps,
        );
        Finished {
            end,
            tally: tally_of(simulation),
        }
    }

    /// Makes the run as `run` does, up to a time before the end, and then pauses it: the end isn't told.
    pub fn run_until<S: Shelf, W: Watch<S>, L: Ledger>(
        self,
        stimulus: &Stimulus,
        until: u64,
        rounds: u32,
        shelf: &mut S,
        watcher: &mut W,
        steps: &mut Steps<L>,
    ) -> Until
        requires rounds { 0 < rounds }
        requires until { until < stimulus.now.end }
        requires nets { length (W.circuit watcher.old).nets ≤ length self.circuit.now.nets }
        requires none_told { W.stands watcher.old shelf.old [] }
        requires stimulus { IsApplied self.circuit.now (stimulus_seen stimulus.now) }
        ensures stopped { HasStopped W.stands W.broken watcher.old watcher.new shelf.old shelf.new self.entry.circuit.now [] (setting_of self.entry.circuit.now (record (stimulus_seen stimulus.now) { end = until }) rounds)
            (origin_of (setting_of self.entry.circuit.now (record (stimulus_seen stimulus.now) { end = until }) rounds)) until 0 (steps.new - steps.old) result }
        ensures steps { steps.old ≤ steps.new }
        ensures cause { CauseOfEnd (S.fault_count shelf.old) (S.fault_count shelf.new) (end_of result) }
        ensures named { NamesFaultOfEnd (W.name watcher.old) (S.last_fault shelf.old) (S.last_fault shelf.new) (end_of result) }
        ensures name { W.name watcher.new ≡ W.name watcher.old }
        ensures circuit { W.circuit watcher.new ≡ W.circuit watcher.old }
        ensures keeps { W.keeps watcher.old shelf.old shelf.new }
    {
        recall_closed(self.circuit);
        moments_of_runs_fit();
        let Sim { circuit, engine } = self;
        let alloc = engine.alloc;
        let mut simulation = engine.simulate(stimulus, 0);
        let made = make_times_until(&mut simulation, 0, until, rounds, shelf, watcher, steps);
        stop(alloc, circuit, simulation, made, until, 0)
    }

    /// A circuit after the time of a moment that fits it, with an agenda on which nothing is pending.
    pub fn resume(
        alloc: Global,
        circuit: &'a Circuit,
        agenda: A,
        moment: &'a Moment,
    ) -> Result<Resumed<'a, A>, NoMemory>
        requires agenda { A.lists agenda ≡ replicate (length circuit.now.elements) [] }
        requires fits { Fits circuit.now (moment_seen moment.now) }
        requires near { moment.now.time < 2 ^ 60 }
        ensures circuit { IfOk result (λ sim. sim.circuit.now ≡ circuit.now) }
        ensures moment { IfOk result (λ sim. moment_seen sim.moment.now ≡ moment_seen moment.now) }
    {
        let parts = circuit.parts();
        let drivers = parts.elements.len() as u32;
        let mut agenda = Immediate::new(alloc, agenda, drivers)?;
        add_pending(&mut agenda, &moment.pending)?;
        let nets = nets_of(alloc, moment)?;
        let told = Told::new(alloc, &moment.nets)?;
        let work = WorkList::new(alloc, drivers)?;
        let elements = elements_of(alloc, circuit, moment)?;
        let fan = FanOut::build(alloc, circuit)?;
        let outputs = outputs_of(alloc, &parts.elements)?;
        let checks = CircuitChecks::resume(alloc, circuit, moment)?;
        Ok(Resumed {
            circuit,
            moment,
            engine: Engine {
                alloc,
                nets,
                told,
                work,
                elements,
                agenda,
                fan,
                outputs,
                checks,
            },
        })
    }
}
