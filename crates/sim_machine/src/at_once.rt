// Which elements place every value at once.
ghost use Rattle.std.specs.Prelude.{◌≡◌, ◌≤◌, ◌<◌, ◌↔◌, All, IsTrue, length, take};
ghost use Rattle.std.specs.Bool.{OnTrue};
ghost use Rattle.sg_logic.specs.declared.values.Value.{Value as NetValue};
ghost use Rattle.sg_delay.specs.GateDelay.{delay_to};
ghost use Rattle.sg_circuit.specs.Seen.{delays_at, IsIndexed};
ghost use Rattle.sg_circuit.specs.Timings.{timing_between};
ghost use Rattle.sg_circuit.specs.TimingsSeen.{leg_timing_seen, timings_at};
ghost use Rattle.sim_machine.specs.AtOnce.{IsUndelayed};

use path_pick::pulse_between;
use sg_circuit::{ElementKind, LegTiming, Parts};
use sg_delay::{GateDelays, gate_delay};
use sg_logic::Value;

const VALUES: [Value; 4] = [Value::Zero, Value::One, Value::X, Value::Z];

// Whether a gate has no delay to any of these values.
fn has_no_delay(delays: &GateDelays, values: &[Value]) -> bool
    requires { delays.now.count ≤ 3 }
    ensures { IsTrue result ↔ All (λ to. delay_to (take delays.now.count delays.now.at) to ≡ 0) values.now }
{
    values.iter().all(|to| gate_delay(delays, *to) == 0)
}

// Whether the delays at a place of a table are none.
fn is_gate_undelayed(table: &[GateDelays], place: u32) -> bool
    requires place { place < length table.now }
    requires counts { All (λ d. d.count ≤ 3) table.now }
    ensures { OnTrue result ((to : NetValue) → delay_to (delays_at table.now place) to ≡ 0) }
{
    has_no_delay(&table[place as usize], &VALUES)
}

// Whether no transition of a leg from a value to any of these has a delay.
fn leaves_at_once(timing: &LegTiming, from: Value, values: &[Value]) -> bool
    ensures { IsTrue result ↔ All (λ to. (timing_between (leg_timing_seen timing.now) from to).delay ≡ 0) values.now }
{
    values
        .iter()
        .all(|to| pulse_between(timing, from, *to).delay == 0)
}

// Whether no transition of a leg between these values has a delay.
fn passes_at_once(timing: &LegTiming, values: &[Value]) -> bool
    ensures { IsTrue result ↔ All (λ from. All (λ to. (timing_between (leg_timing_seen timing.now) from to).delay ≡ 0) values.now) values.now }
{
    values
        .iter()
        .all(|from| leaves_at_once(timing, *from, values))
}

// Whether the timings at a place of a table have no delay.
fn is_leg_undelayed(table: &[LegTiming], place: u32) -> bool
    requires { place < length table.now }
    ensures { OnTrue result ((from to : NetValue) → (timing_between (timings_at table.now place) from to).delay ≡ 0) }
{
    passes_at_once(&table[place as usize], &VALUES)
}

/// Whether an element of this kind has no delay. Of paths it isn't asked.
pub fn is_undelayed(parts: &Parts, kind: ElementKind) -> bool
    requires indexed { IsIndexed parts.now kind }
    requires counts { All (λ d. d.count ≤ 3) parts.now.gate_delays.items }
    ensures { OnTrue result (IsUndelayed parts.now kind) }
{
    match kind {
        ElementKind::Gate { delays, .. } => is_gate_undelayed(&parts.gate_delays, delays),
        ElementKind::Udp { delays, .. } => is_gate_undelayed(&parts.gate_delays, delays),
        ElementKind::Pass { .. } => true,
        ElementKind::Leg { timing } => is_leg_undelayed(&parts.leg_timings, timing),
        ElementKind::Path { .. } => false,
        ElementKind::Late { delay } => delay == 0,
    }
}
