// The simulation of a circuit, round by round.
ghost use Rattle.std.specs.Prelude.{◌≡◌};

use crate::checks::Checks;
use crate::naming::least_net;
use crate::pending::is_any_due;
use crate::times::Rounds;
use crate::told::{Told, touch};
use fan_round::{Elements, Nets, WorkList, change_nets, make_round};
use pulse_list::Agenda;
use sg_circuit::{FanOut, NetId};
use sg_steps::Steps;
use sg_stimulus::{Set, Stimulus};
use sg_text::NoMemory;
use std::sync::ledger::Ledger;
use time_checks::{Change, Violation};

/// A simulation between two rounds.
#[derive(Drop)]
pub struct Simulation<'a, A, E, C> {
    pub nets: Nets,
    pub told: Told,
    pub work: WorkList,
    pub elements: E,
    pub agenda: A,
    pub checks: C,
    pub fan: FanOut,
    // the net that each element drives
    pub outputs: Vec<NetId>,
    pub stimulus: &'a Stimulus,
    // what is handed in to the next round
    pub handed: Vec<Set>,
    pub violations: Vec<Violation>,
    // how many of them are of times that ended
    pub ended: usize,
    pub evaluations: u64,
    // what the last time changed, and the last time that changed anything
    pub changes: Vec<Change>,
    pub last: u64,
}

impl<L: Ledger, A: Agenda + Drop, E: Elements<A, L>, C: Checks> Rounds<L>
    for Simulation<'_, A, E, C> {
    ghost use Rattle.std.specs.Prelude.{length, map};
    ghost use Rattle.sg_stimulus.specs.Seen.{set_seen, stimulus_seen};
    ghost use Rattle.sim_times.specs.Naming.{Moves};
    ghost use Rattle.sim_times.specs.Simulations.{kept_of, IsReadyAt, StandsFor};
    ghost use Rattle.fan_round.specs.States.{state_seen};

    ghost machine = { λ s. E.machine s.elements };

    ghost stands = { λ s now r. StandsFor s.nets (A.lists s.agenda) (E.states s.elements) (C.stands s.checks s.nets.values.items) s.violations.items s.evaluations now r };

    ghost ready = { λ s all now. IsReadyAt all now (E.machine s.elements) (E.net_count s.elements) s.fan s.outputs.items s.nets s.told s.work (A.lists s.agenda) (E.states s.elements) (C.violated s.checks) (C.notifiers s.checks) s.handed.items s.ended s.violations.items × C.over s.checks (length s.nets.values.items) };

    ghost handed = { λ s. map (λ c. set_seen c) s.handed.items };

    ghost counted = { λ s. s.evaluations };

    ghost moves = { λ s now. Moves (E.machine s.elements) now (map (λ c. set_seen c) s.handed.items) (state_seen s.nets (A.lists s.agenda) (E.states s.elements)) };

    ghost kept = { λ s. kept_of s.told (C.latest s.checks) s.ended s.violations.items s.last (stimulus_seen s.stimulus.now) };

    ghost counts = { λ s n r h. h.evaluations };

    fn needs(&mut self, now: u64, must: bool) -> bool {
        if must {
            return true;
        }
        if !self.handed.is_empty() {
            return true;
        }
        is_any_due(&mut self.agenda, now)
    }

    fn round(&mut self, now: u64, all: bool, steps: &mut Steps<L>) -> Result<(), NoMemory> {
        let count = make_round(
            &mut self.nets,
            &mut self.work,
            &mut self.elements,
            &mut self.agenda,
            &self.outputs,
            &self.fan,
            now,
            all,
            &self.handed,
            steps,
        )?;
        touch(
            &mut self.told,
            &self.nets.changed,
            &self.nets.before,
            &self.nets.values,
        );
        self.checks
            .touch(&self.nets.changed, &self.nets.before, &self.nets.values);
        self.evaluations = self.evaluations.saturating_add(count as u64);
        self.handed.clear();
        Ok(())
    }

    fn snapshot(&mut self, now: u64) -> Result<bool, NoMemory> {
        self.handed.clear();
        self.checks.see(
            now,
            &self.nets.values,
            &mut self.violations,
            &mut self.handed,
        )?;
        Ok(!self.handed.is_empty())
    }

    fn name(&mut self, now: u64) -> u32 {
        if !self.nets.changed.is_empty() {
            return least_net(&self.nets.changed);
        }
        change_nets(
            &mut self.nets,
            &mut self.agenda,
            &self.outputs,
            now,
            &self.handed,
        );
        least_net(&self.nets.changed)
    }
}
