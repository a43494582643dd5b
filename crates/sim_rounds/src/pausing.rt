// A simulation that is paused, and the moment that it has come to.
ghost use Rattle.std.specs.Prelude.{◌≡◌, ◌++◌, ◌+◌, ◌<◌, ◌≤◌, ◌^◌, [], IfOk, OnOk, List, length, map, reverse, take};
ghost use Rattle.fan_round.specs.Nets.{stamp_seen};
ghost use Rattle.sg_circuit.specs.Seen.{element_seen, kind_seen};
ghost use Rattle.sg_circuit.specs.declared.circuits.Parts.{Parts as CircuitParts};
ghost use Rattle.sg_model.specs.Agenda.{list_at};
ghost use Rattle.sg_model.specs.Machine.{Snapshot};
ghost use Rattle.time_checks.specs.Checking.{Stands};
ghost use Rattle.time_checks.specs.Seen.{violation_seen};
ghost use Rattle.time_checks.specs.Violations.{latest_events};
ghost use Rattle.sim_rounds.specs.Moments.{is_udp, pending_in, udp_states};
ghost use Rattle.sim_rounds.specs.MomentsSeen.{change_seen, moment_seen, pending_seen};
ghost use Rattle.sim_rounds.specs.Pausing.{change_kept, pending_by, HasComeTo, HasEach, IsPause};

use crate::circuit_checks::CircuitChecks;
use crate::moments::{LastChange, Moment, Pending};
use crate::sim::{Finished, tally_of};
use crate::stops::Until;
use fan_round::Stamp;
use pulse_list::Agenda;
use sg_circuit::{Circuit, ElementKind, Parts};
use sg_logic::Value;
use sg_text::NoMemory;
use sim_machine::CircuitElements;
use sim_times::{SimEnd, Simulation};
use std::alloc::Global;
use time_checks::{Checker, Latest};

fn change_of(stamp: Option<Stamp>) -> Option<LastChange>
    ensures { result ≡ change_kept stamp }
{
    let stamp = stamp?;
    Some(LastChange {
        time: stamp.time,
        before: stamp.before,
        after: stamp.after,
    })
}

// The last change of each net.
fn last_changes(
    alloc: Global,
    stamps: &[Option<Stamp>],
) -> Result<Vec<Option<LastChange>>, NoMemory>
    ensures { IfOk result (λ v. v.items ≡ map change_kept stamps.now) }
{
    Ok(stamps.iter().map(|stamp| change_of(*stamp)).collect(alloc)?)
}

// Takes a driver's transitions off the agenda, the latest first.
fn drain<A: Agenda>(agenda: &mut A, driver: u32, pending: &mut Vec<Pending>) -> Result<(), NoMemory>
    requires driver { driver < length (A.lists agenda.old) }
    ensures pending { OnOk result (map (λ p. pending_seen p) pending.new.items ≡ map (λ p. pending_seen p) pending.old.items ++ map (pending_by driver) (reverse (list_at (A.lists agenda.old) driver))) }
    ensures many { OnOk result (length (A.lists agenda.new) ≡ length (A.lists agenda.old)) }
    ensures below { OnOk result (take driver (A.lists agenda.new) ≡ take driver (A.lists agenda.old)) }
{
    while let Some((time, value)) = agenda.last(driver) {
        pending.push(Pending {
            driver,
            time,
            value,
        })?;
        agenda.drop_last(driver);
    }
    Ok(())
}

// Takes all transitions off the agenda: those of the last driver first, and of each the latest first.
fn drain_all<A: Agenda>(
    agenda: &mut A,
    drivers: u32,
    pending: &mut Vec<Pending>,
) -> Result<(), NoMemory>
    requires drivers { length (A.lists agenda.old) ≡ drivers }
    requires empty { pending.old.items ≡ [] }
    ensures { OnOk result (map (λ p. pending_seen p) pending.new.items ≡ reverse (pending_in 0 (A.lists agenda.old))) }
{
    for driver in (0..drivers).rev() {
        drain(agenda, driver, pending)?;
    }
    Ok(())
}

// What so many drivers have pending, by driver and then by time. It empties the agenda.
fn drained<A: Agenda>(alloc: Global, agenda: &mut A, drivers: u32) -> Result<Vec<Pending>, NoMemory>
    requires drivers { length (A.lists agenda.old) ≡ drivers }
    ensures { IfOk result (λ v. map (λ p. pending_seen p) v.items ≡ pending_in 0 (A.lists agenda.old)) }
{
    let mut pending = Vec::new(alloc);
    drain_all(agenda, drivers, &mut pending)?;
    pending.reverse();
    Ok(pending)
}

fn is_primitive(kind: ElementKind) -> bool
    ensures { (parts : CircuitParts) → result ≡ is_udp (kind_seen parts kind) }
{
    matches!(kind, ElementKind::Udp { .. })
}

// Of the values that elements computed last, those of primitives' elements.
fn primitive_states(alloc: Global, parts: &Parts, states: &[Value]) -> Result<Vec<Value>, NoMemory>
    requires { length states.now ≡ length parts.now.elements.items }
    ensures { IfOk result (λ v. v.items ≡ udp_states (map (element_seen parts.now) parts.now.elements.items) states.now) }
{
    let mut kept = Vec::new(alloc);
    for (number, element) in parts.elements.iter().enumerate() {
        if is_primitive(element.kind) {
            kept.push(states[number])?;
        }
    }
    Ok(kept)
}

// The latest events of so many checks.
fn latest_of(alloc: Global, checker: &Checker<'_>, checks: u32) -> Result<Vec<Latest>, NoMemory>
    requires { length checker.now.checks ≡ checks }
    ensures { IfOk result (λ v. (snapshots : List Snapshot) → Stands checker.now snapshots → v.items ≡ latest_events checker.now.earlier checker.now.checks snapshots) }
{
    let mut latest = Vec::with_capacity(alloc, checks as usize)?;
    for check in 0..checks {
        latest.push(checker.latest(check))?;
    }
    Ok(latest)
}

// What a simulation of a circuit has come to after a time, where so many elements were evaluated before it began. It empties
// the agenda.
fn moment_after<A: Agenda>(
    alloc: Global,
    circuit: &Circuit,
    simulation: &mut Simulation<'_, A, CircuitElements<'_>, CircuitChecks<'_>>,
    time: u64,
    evaluated: u64,
) -> Result<Moment, NoMemory>
    requires { HasEach circuit.now (A.lists simulation.old.agenda) simulation.old.elements.states simulation.old.checks.checker }
    ensures moment { IfOk result (λ moment. HasComeTo circuit.now simulation.old.nets (A.lists simulation.old.agenda) simulation.old.elements.states simulation.old.checks.checker simulation.old.checks.touched
        simulation.old.violations.items simulation.old.evaluations simulation.old.ended simulation.old.last time evaluated (moment_seen moment)) }
    ensures violations { simulation.new.violations ≡ simulation.old.violations }
    ensures ended { simulation.new.ended ≡ simulation.old.ended }
    ensures evaluations { simulation.new.evaluations ≡ simulation.old.evaluations }
    ensures last { simulation.new.last ≡ simulation.old.last }
{
    let parts = circuit.parts();
    let nets = Vec::from_slice(alloc, &simulation.nets.values)?;
    let stamps = last_changes(alloc, &simulation.nets.stamps)?;
    let pending = drained(alloc, &mut simulation.agenda, parts.elements.len() as u32)?;
    let udps = primitive_states(alloc, parts, simulation.elements.states())?;
    let latest = latest_of(alloc, &simulation.checks.checker, parts.checks.len() as u32)?;
    Ok(Moment {
        time,
        nets,
        stamps,
        pending,
        udps,
        latest,
        last: simulation.last,
        evaluations: evaluated.saturating_add(simulation.evaluations),
    })
}

// Pauses a simulation of a circuit after a time, where so many elements were evaluated before it began. Without memory for the
// moment it ends.
fn pause<A: Agenda + Drop>(
    alloc: Global,
    circuit: &Circuit,
    mut simulation: Simulation<'_, A, CircuitElements<'_>, CircuitChecks<'_>>,
    time: u64,
    evaluated: u64,
) -> Until
    requires { HasEach circuit.now (A.lists simulation.agenda) simulation.elements.states simulation.checks.checker }
    ensures { IsPause (Ok tt) (take simulation.entry.ended (map (λ v. violation_seen v) simulation.entry.violations.items)) simulation.entry.evaluations simulation.entry.last
        (λ m. HasComeTo circuit.now simulation.entry.nets (A.lists simulation.entry.agenda) simulation.entry.elements.states simulation.entry.checks.checker simulation.entry.checks.touched
        simulation.entry.violations.items simulation.entry.evaluations simulation.entry.ended simulation.entry.last time evaluated m) result }
{
    let moment = moment_after(alloc, circuit, &mut simulation, time, evaluated);
    let tally = tally_of(simulation);
    match moment {
        Ok(moment) => Until::Paused { moment, tally },
        Err(error) => Until::Ended(Finished {
            end: Err(SimEnd::from(error)),
            tally,
        }),
    }
}

/// What is left of a simulation of a circuit by the way in which its times up to a stop were made: it is paused, or it ended.
pub fn stop<A: Agenda + Drop>(
    alloc: Global,
    circuit: &Circuit,
    simulation: Simulation<'_, A, CircuitElements<'_>, CircuitChecks<'_>>,
    made: Result<(), SimEnd>,
    time: u64,
    evaluated: u64,
) -> Until
    requires { OnOk made (HasEach circuit.now (A.lists simulation.agenda) simulation.elements.states simulation.checks.checker) }
    ensures { IsPause made (take simulation.entry.ended (map (λ v. violation_seen v) simulation.entry.violations.items)) simulation.entry.evaluations simulation.entry.last
        (λ m. HasComeTo circuit.now simulation.entry.nets (A.lists simulation.entry.agenda) simulation.entry.elements.states simulation.entry.checks.checker simulation.entry.checks.touched
        simulation.entry.violations.items simulation.entry.evaluations simulation.entry.ended simulation.entry.last time evaluated m) result }
{
    match made {
        Ok(()) => pause(alloc, circuit, simulation, time, evaluated),
        Err(end) => Until::Ended(Finished {
            end: Err(end),
            tally: tally_of(simulation),
        }),
    }
}
