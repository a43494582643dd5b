// The delay and the limits of a transition.
ghost use Rattle.std.specs.Prelude.{◌≡◌, ◌<◌, ◌≤◌, ◌^◌, IfSome, Some, position};
ghost use Rattle.sg_logic.specs.Transitions.{goes, transitions};
ghost use Rattle.sg_circuit.specs.Timings.{limits_or, timing_at, timing_between};
ghost use Rattle.sg_circuit.specs.TimingsSeen.{leg_timing_seen, limit_seen, timings_of};
ghost use Rattle.path_pick.specs.Pass.{pulse_by};
ghost use Rattle.path_pick.specs.Within.{AreNear};

use sg_circuit::LegTiming;
use sg_delay::Limit;
use sg_logic::{Trans, Value};

/// A delay and the limits of pulses, in ticks.
#[derive(Clone, Copy)]
pub struct Pulse {
    pub delay: u64,
    pub reject: u64,
    pub error: u64,
}

/// The place of a transition among the twelve, if the values differ.
pub(crate) fn place_of(from: Value, to: Value) -> Option<usize>
    ensures place { result ≡ position (goes from to) transitions }
    ensures within { IfSome result (λ place. place < 12) }
{
    Some(Trans::of(from, to)?.place())
}

// The limits, reject and error, of pulses of a delay; those that no text gives are the delay.
fn limits_by(limit: Limit, delay: u64) -> (u64, u64)
    ensures limits { result ≡ limits_or delay (limit_seen limit) }
    ensures ordered { result.0 ≤ result.1 }
{
    match limit {
        Limit::Follow => (delay, delay),
        Limit::Own(widths) => (widths.reject, widths.error),
    }
}

// The delay and the limits at a place.
fn pulse_at(delays: &[u64; 12], limits: &[Limit; 12], place: usize) -> Pulse
    requires { place < 12 }
    ensures pulse { result ≡ pulse_by (timing_at (timings_of delays.now limits.now) (Some place)) }
    ensures ordered { result.reject ≤ result.error }
    ensures near { AreNear (timings_of delays.now limits.now) → result.delay < 2 ^ 60 }
{
    let delay = delays[place];
    let (reject, error) = limits_by(limits[place], delay);
    Pulse {
        delay,
        reject,
        error,
    }
}

/// The delay and the limits of the transition at a place; where nothing changes they are 0.
pub(crate) fn pulse_of(timing: &LegTiming, place: Option<usize>) -> Pulse
    requires { IfSome place (λ place. place < 12) }
    ensures pulse { result ≡ pulse_by (timing_at (leg_timing_seen timing.now) place) }
    ensures ordered { result.reject ≤ result.error }
    ensures near { AreNear (leg_timing_seen timing.now) → result.delay < 2 ^ 60 }
{
    match place {
        Some(place) => pulse_at(&timing.delays.at, &timing.limits.at, place),
        None => Pulse {
            delay: 0,
            reject: 0,
            error: 0,
        },
    }
}

/// The delay and the limits of a change from a value to another; where nothing changes they are 0.
pub fn pulse_between(timing: &LegTiming, from: Value, to: Value) -> Pulse
    ensures pulse { result ≡ pulse_by (timing_between (leg_timing_seen timing.now) from to) }
    ensures ordered { result.reject ≤ result.error }
    ensures near { AreNear (leg_timing_seen timing.now) → result.delay < 2 ^ 60 }
{
    pulse_of(timing, place_of(from, to))
}
