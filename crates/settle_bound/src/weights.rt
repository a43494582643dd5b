// The longest delays of elements.
ghost use Rattle.std.specs.Prelude.{◌≡◌, ◌<◌, ◌≤◌, All, flat_map, length, map};
ghost use Rattle.sg_circuit.specs.PathsSeen.{paths_seen};
ghost use Rattle.sg_circuit.specs.Seen.{gate_delays_seen, kind_seen, AreIndexed, IsIndexed};
ghost use Rattle.sg_circuit.specs.TimingsSeen.{leg_timing_seen, timings_of};
ghost use Rattle.settle_bound.specs.Hops.{longest, longest_delay};

use sg_circuit::{ElementKind, LegTiming, Parts, Path};
use sg_delay::{GateDelays, Limit};

fn longest(delays: &[u64]) -> u64
    ensures { result ≡ longest delays.now }
{
    let mut most = 0u64;
    for delay in delays {
        most = most.max(*delay);
    }
    most
}

fn longest_of_gate(delays: &GateDelays) -> u64
    requires { delays.now.count ≤ 3 }
    ensures { result ≡ longest (gate_delays_seen delays.now) }
{
    longest(&delays.at[..delays.count as usize])
}

fn longest_of_twelve(delays: &[u64; 12], limits: &[Limit; 12]) -> u64
    ensures { result ≡ longest (map (λ t. t.delay) (timings_of delays.now limits.now)) }
{
    let _ = limits.len();
    longest(delays)
}

fn longest_of_timing(timing: &LegTiming) -> u64
    ensures { result ≡ longest (map (λ t. t.delay) (leg_timing_seen timing.now)) }
{
    longest_of_twelve(&timing.delays.at, &timing.limits.at)
}

fn longest_of_paths(parts: &Parts, paths: &[Path]) -> u64
    requires { All (λ p. p.timing < length parts.now.leg_timings.items) paths.now }
    ensures { result ≡ longest (flat_map (λ p. map (λ t. t.delay) p.timings) (paths_seen parts.now.conditions.items parts.now.leg_timings.items paths.now)) }
{
    let mut most = 0u64;
    for path in paths {
        most = most.max(longest_of_timing(&parts.leg_timings[path.timing]));
    }
    most
}

/// The longest delay of an element of a kind.
pub fn longest_delay(parts: &Parts, kind: ElementKind) -> u64
    requires tables { AreIndexed parts.now }
    requires kind { IsIndexed parts.now kind }
    ensures { result ≡ longest_delay (kind_seen parts.now kind) }
{
    match kind {
        ElementKind::Gate { delays, .. } | ElementKind::Udp { delays, .. } => {
            longest_of_gate(&parts.gate_delays[delays as usize])
        }
        ElementKind::Pass { .. } => 0,
        ElementKind::Leg { timing } => longest_of_timing(&parts.leg_timings[timing as usize]),
        ElementKind::Path { paths, .. } => longest_of_paths(parts, parts.paths_in(paths)),
        ElementKind::Late { delay } => delay,
    }
}
