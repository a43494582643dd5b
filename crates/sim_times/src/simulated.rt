// The simulation of a circuit under a stimulus, time by time.
ghost use Rattle.std.specs.Prelude.{◌≡◌};

use crate::checks::Checks;
use crate::pending::next_due;
use crate::runs::{SimEnd, Times};
use crate::simulation::Simulation;
use crate::steps::{hand_in, next_step, sets_of};
use crate::times::{TimeEnd, make_time};
use crate::told::tell_time_changes;
use fan_round::Elements;
use pulse_list::Agenda;
use sg_logic::Value;
use sg_steps::Steps;
use std::sync::ledger::Ledger;
use time_checks::Change;

impl<L: Ledger, A: Agenda + Drop, E: Elements<A, L>, C: Checks> Times<L>
    for Simulation<'_, A, E, C> {
    ghost use Rattle.std.specs.Prelude.{◌==◌, length};
    ghost use Rattle.sg_stimulus.specs.Seen.{stimulus_seen};
    ghost use Rattle.sg_stimulus.specs.Stimulus.{sets_at};
    ghost use Rattle.sim_times.specs.Simulations.{kept_of, IsReadyAt, StandsBetween};
    ghost use Rattle.sim_times.specs.Steps.{CanApply};
    ghost use Rattle.sim_times.specs.Skipping.{holds_violations, shows_values, stands_skipped};

    ghost machine = { λ s. E.machine s.elements };

    ghost sets = { λ s. sets_at (stimulus_seen s.stimulus.now).steps };

    ghost stands = { λ s now r. StandsBetween s.nets (A.lists s.agenda) (E.states s.elements) (C.stands s.checks s.nets.values.items) s.violations.items s.evaluations s.ended now r };

    ghost ready = { λ s now. IsReadyAt (now == 0) now (E.machine s.elements) (E.net_count s.elements) s.fan s.outputs.items s.nets s.told s.work (A.lists s.agenda) (E.states s.elements) (C.violated s.checks) (C.notifiers s.checks) s.handed.items s.ended s.violations.items × (C.over s.checks (length s.nets.values.items) × CanApply s.outputs.items (length s.nets.values.items) (stimulus_seen s.stimulus.now)) };

    ghost counted = { λ s. s.evaluations };

    ghost kept = { λ s. kept_of s.told (C.latest s.checks) s.ended s.violations.items s.last (stimulus_seen s.stimulus.now) };

    ghost values = { λ s. s.nets.values.items };

    ghost changes = { λ s. s.changes.items };

    ghost skips = { λ s k n r law seen h. stands_skipped (E.machine s.elements) law s.nets (A.lists s.agenda) (E.states s.elements) (C.stands s.checks s.nets.values.items) s.violations.items s.evaluations s.ended k n r seen (λ t last values older. C.skips s.checks t last values s.nets.values.items older) h };

    ghost shows = { λ s n r h. shows_values s.nets (A.lists s.agenda) (E.states s.elements) (C.stands s.checks s.nets.values.items) s.violations.items s.evaluations s.ended n r h };

    ghost holds = { λ s n r h. holds_violations s.nets (A.lists s.agenda) (E.states s.elements) (C.stands s.checks s.nets.values.items) s.violations.items s.evaluations s.ended s.told (C.latest s.checks) s.last (stimulus_seen s.stimulus.now) n r h };

    ghost counts = { λ s n r h. h.run.evaluations };

    fn make(&mut self, now: u64, bound: u32, steps: &mut Steps<L>) -> Result<(), SimEnd> {
        hand_in(&mut self.handed, sets_of(self.stimulus, now))?;
        match make_time(self, now, now == 0, bound, steps) {
            TimeEnd::Whole => {}
            TimeEnd::Spent(net) => return Err(SimEnd::RoundsSpent { time: now, net }),
            TimeEnd::NoMemory => return Err(SimEnd::NoMemory),
        }
        tell_time_changes(
            &mut self.told,
            &self.nets.values,
            &mut self.changes,
            &mut self.last,
            now,
        )?;
        self.ended = self.violations.len();
        Ok(())
    }

    fn next(&mut self, now: u64, end: u64) -> u64 {
        let next = next_step(self.stimulus, now, end + 1);
        next_due(&mut self.agenda, now, next)
    }

    fn values(&self) -> &[Value] {
        &self.nets.values
    }

    fn changes(&self) -> &[Change] {
        &self.changes
    }
}
