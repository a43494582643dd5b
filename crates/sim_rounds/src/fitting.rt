// Whether a moment fits a circuit.
ghost use Rattle.std.specs.Prelude.{◌≡◌, ◌<◌, ◌^◌, ◌↔◌, All, IfOk, IsTrue, length, map};
ghost use Rattle.std.specs.Bool.{OnFalse, OnTrue};
ghost use Rattle.sg_circuit.specs.Seen.{circuit_seen};
ghost use Rattle.time_checks.specs.Falling.{AreBy, IsBy};
ghost use Rattle.sim_rounds.specs.Fitting.{AreStamped, HasPast, HasSizes};
ghost use Rattle.sim_rounds.specs.Moments.{Fits, IsStampOf};
ghost use Rattle.sim_rounds.specs.MomentsSeen.{change_seen, moment_seen};

use crate::moments::{LastChange, Moment, Pending};
use crate::settling::is_settled;
use crate::sim::first_value;
use sg_circuit::{Circuit, Driver, Net, Parts};
use sg_logic::Value;
use sg_text::NoMemory;
use std::alloc::Global;
use time_checks::Latest;

// What is pending comes earlier than this time.
const TOO_FAR: u64 = 1 << 62;

// Whether each transition is one of so many drivers, and isn't too far.
fn are_known(pending: &[Pending], drivers: usize) -> bool
    ensures { IsTrue result ↔ All (λ p. (p.driver < drivers) × (p.time < 2 ^ 62)) pending.now }
{
    pending
        .iter()
        .all(|p| (p.driver as usize) < drivers && p.time < TOO_FAR)
}

// Whether a moment speaks of the nets, the elements and the timing checks of a circuit.
fn has_sizes(parts: &Parts, moment: &Moment) -> bool
    ensures { IsTrue result ↔ HasSizes (circuit_seen parts.now) (moment_seen moment.now) }
{
    moment.nets.len() == parts.nets.len()
        && moment.stamps.len() == parts.nets.len()
        && moment.latest.len() == parts.checks.len()
        && are_known(&moment.pending, parts.elements.len())
}

// Whether a net can have had this last change by a time, or none, if it has such a value then.
fn is_stamp(time: u64, driver: Driver, value: Value, stamp: Option<LastChange>) -> bool
    ensures { IsTrue result ↔ IsStampOf time driver value (change_seen stamp) }
{
    match stamp {
        None => value == first_value(driver),
        Some(change) => change.time <= time && change.after == value && change.before != value,
    }
}

// The same of all nets.
fn are_stamped(time: u64, nets: &[Net], values: &[Value], stamps: &[Option<LastChange>]) -> bool
    requires values { length values.now ≡ length nets.now }
    requires stamps { length stamps.now ≡ length nets.now }
    ensures { IsTrue result ↔ AreStamped time nets.now values.now (map change_seen stamps.now) }
{
    for (index, net) in nets.iter().enumerate() {
        if !is_stamp(time, net.driver, values[index], stamps[index]) {
            return false;
        }
    }
    true
}

// Whether an event, if one is known, came by a time.
fn is_by(time: u64, event: Option<u64>) -> bool
    ensures { IsTrue result ↔ IsBy time event }
{
    match event {
        None => true,
        Some(known) => known <= time,
    }
}

// The same of the latest events of all timing checks.
fn are_by(time: u64, latest: &[Latest]) -> bool
    ensures { IsTrue result ↔ All (λ l. IsBy time l.refer × IsBy time l.datum) latest.now }
{
    latest.iter().all(|known| is_by(time, known.refer) && is_by(time, known.datum))
}

// Whether nothing that happened is later than the moment, and the nets have the values of their last changes.
fn has_past(parts: &Parts, moment: &Moment) -> bool
    requires { HasSizes (circuit_seen parts.now) (moment_seen moment.now) }
    ensures { IsTrue result ↔ HasPast (circuit_seen parts.now) (moment_seen moment.now) }
{
    moment.last <= moment.time
        && are_by(moment.time, &moment.latest)
        && are_stamped(moment.time, &parts.nets, &moment.nets, &moment.stamps)
}

/// Whether a moment fits a circuit: it has a value and a last change for each net, a state for each element of a primitive and the latest
/// events of each timing check; what is pending is in order and later than its time, and all else no later; and each element
/// has the value that it computes from the nets as they are. Time and memory are in proportion to the circuit and to what is pending.
pub fn fits(alloc: Global, circuit: &Circuit, moment: &Moment) -> Result<bool, NoMemory>
    ensures fits { IfOk result (λ fit. OnTrue fit (Fits circuit.now (moment_seen moment.now))) }
    ensures unfit { IfOk result (λ fit. OnFalse fit (¬ Fits circuit.now (moment_seen moment.now))) }
{
    let parts = circuit.parts();
    if !has_sizes(parts, moment) {
        return Ok(false);
    }
    if !has_past(parts, moment) {
        return Ok(false);
    }
    is_settled(alloc, parts, moment)
}
