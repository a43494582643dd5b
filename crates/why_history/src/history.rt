// A watcher that keeps each change.
ghost use Rattle.std.specs.Prelude.{◌≡◌, ◌++◌, OnOk, map};
ghost use Rattle.sim_times.specs.Watching.{net_change};
ghost use Rattle.why_history.specs.Events.{events_at};

use cond_expr::Nets;
use sg_circuit::Circuit;
use sg_io::{Shelf, ShelfError};
use sim_times::Watch;
use std::alloc::{AllocError, Global};
use time_checks::Change;
use why_causes::Event;

/// Keeps each change of a circuit's run: 16 bytes a change. It is a watcher of the run.
#[derive(Drop)]
pub struct History<'a> {
    circuit: &'a Circuit,
    events: Vec<Event>,
}

impl<'a> History<'a> {
    ghost use Rattle.std.specs.Prelude.{◌≡◌, []};

    /// Before a run.
    pub fn new(alloc: Global, circuit: &'a Circuit) -> History<'a>
        ensures circuit { result.circuit.now ≡ circuit.now }
        ensures events { result.events.items ≡ [] }
    {
        History {
            circuit,
            events: Vec::new(alloc),
        }
    }

    /// What was kept.
    pub fn into_events(self) -> Vec<Event>
        ensures { result.items ≡ self.entry.events.items }
    {
        self.events
    }
}

fn push_events(events: &mut Vec<Event>, time: u64, changed: &[Change]) -> Result<(), AllocError>
    ensures { OnOk result (events.new.items ≡ events.old.items ++ events_at time (map net_change changed.now)) }
{
    for change in changed {
        events.push(Event {
            time,
            net: change.net,
            value: change.to,
        })?;
    }
    Ok(())
}

impl<'a, S: Shelf> Watch<S> for History<'a> {
    ghost use Rattle.std.specs.Prelude.{◌≡◌, [], refl};
    ghost use Rattle.std.proofs.Common.{◌∙◌};
    ghost use Rattle.why_history.specs.Events.{events};

    ghost name = { λ w. [] };

    ghost circuit = { λ w. w.circuit.now };

    ghost stands = { λ w s calls. w.events.items ≡ events calls };

    ghost broken = { λ w s calls. Unit {0} };

    ghost keeps = { λ w a b. b ≡ a };

    ghost keeps_same = { λ w s. refl };

    ghost keeps_on = { λ w a b c p q. q ∙ p };

    fn time<N: Nets>(
        &mut self,
        _: &mut S,
        time: u64,
        changed: &[Change],
        _: &N,
    ) -> Result<(), ShelfError> {
        push_events(&mut self.events, time, changed)?;
        Ok(())
    }
}
