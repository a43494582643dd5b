// A run, watched.
ghost use Rattle.std.specs.Prelude.{◌≡◌, ◌<◌, ◌≤◌, ◌^◌, [], All, IfOk, length, map};
ghost use Rattle.std.specs.List.{AllPairs};
ghost use Rattle.sg_stimulus.specs.Applied.{IsApplied};
ghost use Rattle.sg_stimulus.specs.Seen.{stimulus_seen};
ghost use Rattle.time_checks.specs.Seen.{violation_seen};
ghost use Rattle.sim_rounds.specs.Setting.{setting_of};
ghost use Rattle.sim_rounds.specs.Simulated.{first_state, first_value_of, run_of_circuit};
ghost use Rattle.why_history.specs.Bounds.{IsBounded};
ghost use Rattle.why_history.specs.Events.{AreEvents};
ghost use Rattle.why_history.specs.Ends.{found_in, HasRun, IsEnd};

use crate::history::History;
use event_wheel::Wheel;
use sg_circuit::{Circuit, Driver, Net, NetId};
use sg_io::{MemoryShelf, Shelf};
use sg_logic::Value;
use sg_steps::Steps;
use sg_stimulus::Stimulus;
use sg_text::NoMemory;
use sim_rounds::{Finished, Sim};
use sim_times::{SimEnd, Watch};
use std::alloc::Global;
use std::marker::Brand;
use std::sync::ledger::{Blank, Ledger};
use time_checks::Violation;
use why_causes::Event;

// The answer doesn't depend on it.
const BUCKETS: u32 = 4096;

/// A time, in ticks, that needed more rounds than the bound, and a net that went on changing in it.
#[derive(Clone, Copy, Debug, PartialEq, Eq)]
pub struct Spent {
    pub time: u64,
    pub net: NetId,
}

/// What a run came to, with each change of its nets.
#[derive(Debug, Drop)]
pub struct Watched {
    /// The values of the nets before time 0.
    pub first: Vec<Value>,
    /// By rising times, each net at most once a time.
    pub events: Vec<Event>,
    pub violations: Vec<Violation>,
    /// The time that needed more rounds than the bound, if there was one.
    pub spent: Option<Spent>,
}

// The value of a net before time 0: of a driven one x, and of every other z.
fn first_value(driver: Driver) -> Value
    ensures { result ≡ first_value_of driver }
{
    match driver {
        Driver::Nobody => Value::Z,
        Driver::Stimulus | Driver::Element(_) | Driver::Notifier => Value::X,
    }
}

fn first_values(alloc: Global, nets: &[Net]) -> Result<Vec<Value>, NoMemory>
    ensures { IfOk result (λ v. v.items ≡ map (λ net. first_value_of net.driver) nets.now) }
{
    Ok(
        nets.iter()
            .map(|net| first_value(net.driver))
            .collect(alloc)?,
    )
}

// The time that was spent, if a run came to an end.
fn spent_of(end: Result<(), SimEnd>) -> Result<Option<Spent>, NoMemory>
    ensures { IfOk result (λ spent. IsEnd spent end) }
{
    match end {
        Ok(()) => Ok(None),
        Err(SimEnd::RoundsSpent { time, net }) => Ok(Some(Spent { time, net })),
        Err(SimEnd::WatchFailed | SimEnd::NoMemory) => Err(NoMemory),
    }
}

// The run of a circuit, told to a watcher.
fn simulate<S: Shelf, W: Watch<S>, L: Ledger>(
    alloc: Global,
    circuit: &Circuit,
    stimulus: &Stimulus,
    bound: u32,
    shelf: &mut S,
    watcher: &mut W,
    blank: Blank,
) -> Result<Finished, NoMemory>
    requires name { blank.name ≡ L.name }
    requires parts { blank.parts ≡ L.parts }
    requires some { 0 < blank.parts }
    requires bound { 0 < bound }
    requires nets { length (W.circuit watcher.old).nets ≤ length circuit.now.nets }
    requires none_told { W.stands watcher.old shelf.old [] }
    requires applied { IsApplied circuit.now (stimulus_seen stimulus.now) }
    ensures { IfOk result (λ f. HasRun W.stands W.broken watcher.old watcher.new shelf.old shelf.new (setting_of circuit.now (stimulus_seen stimulus.now) bound) f) }
{
    let agenda = Wheel::new(alloc, BUCKETS, circuit.parts().elements.len() as u32)?;
    let sim = Sim::new(alloc, circuit, agenda)?;
    let mut steps = Steps::<L>::new(blank);
    Ok(sim.run(stimulus, bound, shelf, watcher, &mut steps))
}

/// Simulates a circuit under a stimulus, with at most `bound` rounds a time, and keeps each change of its nets: what a watcher
/// of the run is told. Takes memory for them, 16 bytes a change.
pub fn watch(
    alloc: Global,
    circuit: &Circuit,
    stimulus: &Stimulus,
    bound: u32,
) -> Result<Watched, NoMemory>
    requires bound { 0 < bound }
    requires applied { IsApplied circuit.now (stimulus_seen stimulus.now) }
    ensures first { IfOk result (λ w. w.first.items ≡ (first_state circuit.now).values) }
    ensures few { IfOk result (λ w. length w.first.items < 2 ^ 32) }
    ensures first_nets { IfOk result (λ w. length w.first.items ≡ length circuit.now.nets) }
    ensures events { IfOk result (λ w. AreEvents (first_state circuit.now).values (run_of_circuit circuit.now bound (stimulus_seen stimulus.now)) w.events.items) }
    ensures nets { IfOk result (λ w. All (λ e. e.net < length w.first.items) w.events.items) }
    ensures times { IfOk result (λ w. All (λ e. e.time < 2 ^ 60) w.events.items) }
    ensures rise { IfOk result (λ w. AllPairs (λ d e. d.time ≤ e.time) w.events.items) }
    ensures violations { IfOk result (λ w. map (λ v. violation_seen v) w.violations.items ≡ (run_of_circuit circuit.now bound (stimulus_seen stimulus.now)).run.violations) }
    ensures bounded { IfOk result (λ w. All (λ v. IsBounded circuit.now v) w.violations.items) }
    ensures spent { IfOk result (λ w. found_in w.spent ≡ (run_of_circuit circuit.now bound (stimulus_seen stimulus.now)).spent) }
{
    let mut shelf = MemoryShelf::new(alloc);
    let mut history = History::new(alloc, circuit);
    let finished = simulate::<MemoryShelf, History<'_>, Brand>(
        alloc,
        circuit,
        stimulus,
        bound,
        &mut shelf,
        &mut history,
        Blank::new(1),
    )?;
    let spent = spent_of(finished.end)?;
    Ok(Watched {
        first: first_values(alloc, &circuit.parts().nets)?,
        events: history.into_events(),
        violations: finished.tally.violations,
        spent,
    })
}
