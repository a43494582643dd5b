// How long elements take for a change.
ghost use Rattle.std.specs.Prelude.{◌≡◌, ◌≤◌, ◌<◌, ◌^◌, All, IfSome, length, position};
ghost use Rattle.sg_logic.specs.Transitions.{goes, transitions};
ghost use Rattle.sg_delay.specs.GateDelay.{delay_to};
ghost use Rattle.sg_circuit.specs.Closed.{HasDelays};
ghost use Rattle.sg_circuit.specs.Seen.{delays_at, kind_seen, IsIndexed};
ghost use Rattle.sg_circuit.specs.Timings.{timing_between};
ghost use Rattle.sg_circuit.specs.TimingsSeen.{leg_timing_seen, timings_at};
ghost use Rattle.why_causes.specs.Causes.{delay_of as delay_of_kind, limit_of as limit_before};

use crate::changes::Change;
use sg_circuit::{ElementKind, LegTiming, Parts};
use sg_delay::{GateDelays, gate_delay};
use sg_logic::{Trans, Value};

// The place of a transition among the twelve, if the values differ.
fn place_of(from: Value, to: Value) -> Option<usize>
    ensures place { result ≡ position (goes from to) transitions }
    ensures within { IfSome result (λ place. place < 12) }
{
    Some(Trans::of(from, to)?.place())
}

// The delay of a change from a value to another; 0 where nothing changes.
fn timing_delay(timing: &LegTiming, from: Value, to: Value) -> u64
    requires { length (leg_timing_seen timing.now) ≡ 12 }
    ensures { result ≡ (timing_between (leg_timing_seen timing.now) from to).delay }
{
    match place_of(from, to) {
        Some(place) => timing.delays.at[place],
        None => 0,
    }
}

/// The delay of a change by a table's timing.
pub(crate) fn delay_at(timings: &[LegTiming], place: usize, change: Change) -> u64
    requires place { place < length timings.now }
    requires twelve { length (timings_at timings.now place) ≡ 12 }
    ensures { result ≡ (timing_between (timings_at timings.now place) change.from change.to).delay }
{
    timing_delay(&timings[place], change.from, change.to)
}

// The delay of a gate by a table's delays.
fn gate_delay_at(table: &[GateDelays], place: usize, to: Value) -> u64
    requires place { place < length table.now }
    requires counts { All (λ d. d.count ≤ 3) table.now }
    ensures { result ≡ delay_to (delays_at table.now place) to }
{
    gate_delay(&table[place], to)
}

/// How long an element of a kind takes for a change of its output. A path's input is the net inside, at any time before.
pub(crate) fn delay_of(parts: &Parts, kind: ElementKind, change: Change) -> u64
    requires indexed { IsIndexed parts.now kind }
    requires counts { All (λ d. d.count ≤ 3) parts.now.gate_delays.items }
    requires delays { HasDelays (kind_seen parts.now kind) }
    ensures { result ≡ delay_of_kind (kind_seen parts.now kind) change }
{
    match kind {
        ElementKind::Gate { delays, .. } => {
            gate_delay_at(&parts.gate_delays, delays as usize, change.to)
        }
        ElementKind::Udp { delays, .. } => {
            gate_delay_at(&parts.gate_delays, delays as usize, change.to)
        }
        ElementKind::Pass { .. } => 0,
        ElementKind::Leg { timing } => delay_at(&parts.leg_timings, timing as usize, change),
        ElementKind::Path { .. } => 0,
        ElementKind::Late { delay } => delay,
    }
}

/// An event so long before a change, or earlier, is one before this time; where the change comes too soon for that there is none.
pub(crate) fn limit_of(delay: u64, change: Change) -> u64
    requires { change.time < 2 ^ 60 }
    ensures { result ≡ limit_before delay change }
{
    (change.time + 1).saturating_sub(delay)
}
