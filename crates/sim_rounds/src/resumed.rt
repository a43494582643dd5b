// A simulator that goes on from a moment.
ghost use Rattle.std.specs.Prelude.{[], ◌∷◌};
ghost use Rattle.std.specs.Coded.{Coded-set, coded_ℕ};
ghost use Rattle.std.proofs.Props.{props};
ghost use Rattle.cond_expr.specs.Codes.{coded_cond};
ghost use Rattle.sim_rounds.specs.Engines.{AreChecksAt, IsEngineAt};
ghost use Rattle.sim_rounds.specs.MomentProps.{Fits-prop};
ghost use Rattle.sim_rounds.specs.Moments.{Fits, snapshot_of, state_of};
ghost use Rattle.sim_rounds.specs.MomentsSeen.{moment_seen};

use crate::engine::Engine;
use crate::laws::moments_of_runs_fit;
use crate::moments::Moment;
use crate::pausing::stop;
use crate::sim::{Finished, recall_closed, tally_of};
use crate::stops::Until;
use immediate_list::Immediate;
use pulse_list::Agenda;
use sg_circuit::Circuit;
use sg_io::Shelf;
use sg_steps::Steps;
use sg_stimulus::Stimulus;
use sim_times::{Watch, make_times, make_times_until};
use std::sync::ledger::Ledger;

/// A circuit after the time of a moment.
#[derive(Drop)]
pub struct Resumed<'a, A: Agenda> {
    pub(super) circuit: &'a Circuit,
    pub(super) moment: &'a Moment,
    pub(super) engine: Engine<'a, Immediate<A>>,
    ghost fits: { Fits circuit.now (moment_seen moment.now) } by { Fits-prop circuit.now (moment_seen moment.now) },
    ghost seen: { AreChecksAt circuit.now moment.now.latest.items (snapshot_of (moment_seen moment.now) ∷ []) engine.checks.checks.now engine.checks.checker engine.checks.touched engine.checks.named } by { Prim.hlevel (props, Coded-set (coded_cond coded_ℕ)) },
    ghost at: { IsEngineAt circuit.now moment.now.latest.items (state_of circuit.now (moment_seen moment.now)) engine.nets engine.told engine.work engine.elements engine.agenda.0 engine.fan engine.outputs.items },
}

impl<'a, A: Agenda + Drop> Resumed<'a, A> {
    ghost use Rattle.std.specs.Prelude.{◌≡◌, ◌-◌, ◌<◌, ◌≤◌, length, map};
    ghost use Rattle.sg_stimulus.specs.Applied.{IsApplied};
    ghost use Rattle.sg_stimulus.specs.Seen.{stimulus_seen};
    ghost use Rattle.time_checks.specs.Seen.{violation_seen};
    ghost use Rattle.sim_times.specs.Runs.{CauseOfEnd, HasEndedFrom, NamesFaultOfEnd};
    ghost use Rattle.sim_times.specs.Times.{count_shown};
    ghost use Rattle.sim_rounds.specs.Stopping.{HasStopped, end_of, origin_at, setting_since, told_of};

    /// Makes the rest of the run of the circuit under a stimulus, from the tick after the moment on, to the stimulus's end or to a time that needs more
    /// rounds than so many, and tells the watcher: at each time whose nets differ from those of the time before, with
    /// exactly these nets, and at the end. Steps of the stimulus up to the moment are passed over, and no first round
    /// evaluates all elements.
    ///
    /// Violations and evaluations are those of the rest alone.
    pub fn run<S: Shelf, W: Watch<S>, L: Ledger>(
        self,
        stimulus: &Stimulus,
        rounds: u32,
        shelf: &mut S,
        watcher: &mut W,
        steps: &mut Steps<L>,
    ) -> Finished
        requires rounds { 0 < rounds }
        requires end { self.moment.now.time < stimulus.now.end }
        requires nets { length (W.circuit watcher.old).nets ≤ length self.circuit.now.nets }
        requires told { W.stands watcher.old shelf.old (told_of (moment_seen self.moment.now)) }
        requires stimulus { IsApplied self.circuit.now (stimulus_seen stimulus.now) }
        ensures ended { HasEndedFrom W.stands W.broken watcher.old watcher.new shelf.old shelf.new (setting_since self.entry.circuit.now (stimulus_seen stimulus.now) rounds (moment_seen self.entry.moment.now))
            (origin_at self.entry.circuit.now stimulus.now.end (moment_seen self.entry.moment.now)) (map (λ v. violation_seen v) result.tally.violations.items) result.tally.last (steps.new - steps.old) result.end }
        ensures evaluations { result.tally.evaluations ≡ count_shown (steps.new - steps.old) }
        ensures steps { steps.old ≤ steps.new }
        ensures cause { CauseOfEnd (S.fault_count shelf.old) (S.fault_count shelf.new) result.end }
        ensures named { NamesFaultOfEnd (W.name watcher.old) (S.last_fault shelf.old) (S.last_fault shelf.new) result.end }
        ensures name { W.name watcher.new ≡ W.name watcher.old }
        ensures circuit { W.circuit watcher.new ≡ W.circuit watcher.old }
        ensures keeps { W.keeps watcher.old shelf.old shelf.new }
    {
        recall_closed(self.circuit);
        let Resumed {
            circuit: _,
            moment,
            engine,
        } = self;
        let mut simulation = engine.simulate(stimulus, moment.last);
        let end = make_times(
            &mut simulation,
            moment.time + 1,
            stimulus.end,
            rounds,
            shelf,
            watcher,
            steps,
        );
        Finished {
            end,
            tally: tally_of(simulation),
        }
    }

    /// Makes the rest as `run` does, up to a time that isn't below the moment's nor the end, and then pauses it. The new
    /// moment counts evaluations on from the old one.
    pub fn run_until<S: Shelf, W: Watch<S>, L: Ledger>(
        self,
        stimulus: &Stimulus,
        until: u64,
        rounds: u32,
        shelf: &mut S,
        watcher: &mut W,
        steps: &mut Steps<L>,
    ) -> Until
        requires rounds { 0 < rounds }
        requires from { self.moment.now.time ≤ until }
        requires until { until < stimulus.now.end }
        requires nets { length (W.circuit watcher.old).nets ≤ length self.circuit.now.nets }
        requires told { W.stands watcher.old shelf.old (told_of (moment_seen self.moment.now)) }
        requires stimulus { IsApplied self.circuit.now (stimulus_seen stimulus.now) }
        ensures stopped { HasStopped W.stands W.broken watcher.old watcher.new shelf.old shelf.new self.entry.circuit.now self.entry.moment.now.latest.items (setting_since self.entry.circuit.now (record (stimulus_seen stimulus.now) { end = until }) rounds (moment_seen self.entry.moment.now))
            (origin_at self.entry.circuit.now until (moment_seen self.entry.moment.now)) until self.entry.moment.now.evaluations (steps.new - steps.old) result }
        ensures steps { steps.old ≤ steps.new }
        ensures cause { CauseOfEnd (S.fault_count shelf.old) (S.fault_count shelf.new) (end_of result) }
        ensures named { NamesFaultOfEnd (W.name watcher.old) (S.last_fault shelf.old) (S.last_fault shelf.new) (end_of result) }
        ensures name { W.name watcher.new ≡ W.name watcher.old }
        ensures circuit { W.circuit watcher.new ≡ W.circuit watcher.old }
        ensures keeps { W.keeps watcher.old shelf.old shelf.new }
    {
        recall_closed(self.circuit);
        moments_of_runs_fit();
        let Resumed {
            circuit,
            moment,
            engine,
        } = self;
        let alloc = engine.alloc;
        let mut simulation = engine.simulate(stimulus, moment.last);
        let made = make_times_until(
            &mut simulation,
            moment.time + 1,
            until,
            rounds,
            shelf,
            watcher,
            steps,
        );
        stop(alloc, circuit, simulation, made, until, moment.evaluations)
    }
}
