// The parts of a simulator as a moment says them.
ghost use Rattle.std.specs.Prelude.{◌≡◌, ℕ, ◌<◌, ◌^◌, [], All, IfOk, IfSome, OnOk, length, map, reverse};
ghost use Rattle.sg_model.specs.Agenda.{Rises, list_at};
ghost use Rattle.sg_model.specs.Values.{value_at};
ghost use Rattle.fan_round.specs.Nets.{stamp_seen, AreNets};
ghost use Rattle.sim_rounds.specs.Moments.{Fits, pending_of, state_of};
ghost use Rattle.sim_rounds.specs.MomentsSeen.{change_seen, moment_seen, pending_seen};
ghost use Rattle.sim_rounds.specs.Restored.{with_values};

use crate::moments::{LastChange, Moment, Pending};
use fan_round::{Nets, Stamp};
use pulse_list::Agenda;
use sg_circuit::{Circuit, Element};
use sg_logic::Value;
use sg_text::NoMemory;
use sim_machine::CircuitElements;
use std::alloc::Global;

// A net's last change.
fn stamp_of(change: Option<LastChange>) -> Option<Stamp>
    requires { IfSome change (λ c. c.time < 2 ^ 60) }
    ensures { stamp_seen result ≡ change_seen change }
{
    let change = change?;
    Some(Stamp {
        time: change.time,
        before: change.before,
        after: change.after,
    })
}

// Those of all nets.
fn stamps_of(alloc: Global, changes: &[Option<LastChange>]) -> Result<Vec<Option<Stamp>>, NoMemory>
    requires { All (λ change. IfSome change (λ c. c.time < 2 ^ 60)) changes.now }
    ensures { IfOk result (λ v. map stamp_seen v.items ≡ map change_seen changes.now) }
{
    let mut stamps = Vec::with_capacity(alloc, changes.len())?;
    for change in changes {
        stamps.push(stamp_of(*change))?;
    }
    Ok(stamps)
}

/// The nets of a moment, which no round has changed since then.
pub fn nets_of(alloc: Global, moment: &Moment) -> Result<Nets, NoMemory>
    requires as_many { length moment.now.stamps.items ≡ length moment.now.nets.items }
    requires near { All (λ change. IfSome change (λ c. c.time < 2 ^ 60)) moment.now.stamps.items }
    ensures nets { IfOk result (λ nets. AreNets nets) }
    ensures values { IfOk result (λ nets. nets.values.items ≡ moment.now.nets.items) }
    ensures before { IfOk result (λ nets. nets.before.items ≡ moment.now.nets.items) }
    ensures stamps { IfOk result (λ nets. map stamp_seen nets.stamps.items ≡ map change_seen moment.now.stamps.items) }
{
    Ok(Nets {
        values: Vec::from_slice(alloc, &moment.nets)?,
        before: Vec::from_slice(alloc, &moment.nets)?,
        stamps: stamps_of(alloc, &moment.stamps)?,
        changed: Vec::with_capacity(alloc, moment.nets.len())?,
    })
}

// The value of the net that each element drives.
fn output_values(
    alloc: Global,
    elements: &[Element],
    nets: &[Value],
) -> Result<Vec<Value>, NoMemory>
    requires { All (λ e. e.output < length nets.now) elements.now }
    ensures { IfOk result (λ v. v.items ≡ map (λ e. value_at nets.now e.output) elements.now) }
{
    let mut values = Vec::with_capacity(alloc, elements.len())?;
    for element in elements {
        values.push(nets[element.output as usize])?;
    }
    Ok(values)
}

// Each driver's value becomes that of its transition.
fn put_values(values: &mut [Value], pending: &[Pending])
    requires { All (λ p. p.driver < length values.old) pending.now }
    ensures { values.new ≡ with_values (map (λ p. pending_seen p) pending.now) values.old }
{
    for transition in pending {
        values[transition.driver as usize] = transition.value;
    }
}

// The value that each element computed last: that with which its pending transitions end, or else that of the net that
// it drives.
fn last_values(
    alloc: Global,
    elements: &[Element],
    nets: &[Value],
    pending: &[Pending],
) -> Result<Vec<Value>, NoMemory>
    requires outputs { All (λ e. e.output < length nets.now) elements.now }
    requires drivers { All (λ p. p.driver < length elements.now) pending.now }
    ensures { IfOk result (λ v. v.items ≡ with_values (map (λ p. pending_seen p) pending.now) (map (λ e. value_at nets.now e.output) elements.now)) }
{
    let mut values = output_values(alloc, elements, nets)?;
    put_values(&mut values, pending);
    Ok(values)
}

/// The transitions of a moment are put on an agenda on which nothing is pending.
pub fn add_pending<A: Agenda>(agenda: &mut A, pending: &[Pending]) -> Result<(), NoMemory>
    requires drivers { All (λ p. p.driver < length (A.lists agenda.old)) pending.now }
    requires none { (e : ℕ) → e < length (A.lists agenda.old) → list_at (A.lists agenda.old) e ≡ [] }
    requires rise { (e : ℕ) → e < length (A.lists agenda.old) → Rises (reverse (pending_of e (map (λ p. pending_seen p) pending.now))) }
    ensures many { OnOk result (length (A.lists agenda.new) ≡ length (A.lists agenda.old)) }
    ensures each { OnOk result ((e : ℕ) → e < length (A.lists agenda.old) → list_at (A.lists agenda.new) e ≡ pending_of e (map (λ p. pending_seen p) pending.now)) }
{
    for transition in pending {
        agenda.reserve(1)?;
        agenda.append(transition.driver, transition.time, transition.value);
    }
    Ok(())
}

/// The elements of a circuit as they are after the time of a moment that fits it. Takes as much memory as `CircuitElements::new`.
pub fn elements_of<'a>(
    alloc: Global,
    circuit: &'a Circuit,
    moment: &'a Moment,
) -> Result<CircuitElements<'a>, NoMemory>
    requires { Fits circuit.now (moment_seen moment.now) }
    ensures { IfOk result (λ g. g ≡ record { circuit = circuit.now; earlier = moment.now.latest.items; states = (state_of circuit.now (moment_seen moment.now)).states }) }
{
    let parts = circuit.parts();
    let states = last_values(alloc, &parts.elements, &moment.nets, &moment.pending)?;
    CircuitElements::of_states(alloc, circuit, &moment.latest, states)
}
