// Hops: how a change goes from net to net.
ghost use Rattle.std.specs.Prelude.{◌≡◌, ◌↔◌, ◌<◌, IsSome, IsTrue, length};
ghost use Rattle.sg_circuit.specs.Closed.{IsClosed};
ghost use Rattle.sg_circuit.specs.FanOut.{has};
ghost use Rattle.sg_circuit.specs.Seen.{circuit_seen};
ghost use Rattle.time_checks.specs.Adjusted.{adjusted_checks};
ghost use Rattle.time_checks.specs.Checking.{check_at};
ghost use Rattle.time_checks.specs.Within.{datum_nets, terminals};
ghost use Rattle.sim_rounds.specs.Notifiers.{notifier_at};
ghost use Rattle.settle_bound.specs.Hops.{net_driven, nets_read, IsHop, Reads};

use crate::terminals::{datum_net, refer_net};
use sg_circuit::{NetId, Parts};

/// An element of a circuit, from its inputs to its output; or a timing check, from its terminals to its notifier.
#[derive(Clone, Copy, Debug, PartialEq, Eq)]
pub enum Hop {
    Element(u32),
    Check(u32),
}

// Whether a hop is one of a circuit: a timing check needs a notifier.
pub fn is_hop(parts: &Parts, hop: Hop) -> bool
    requires { IsClosed (circuit_seen parts.now) }
    ensures { IsTrue result ↔ IsHop (circuit_seen parts.now) hop }
{
    match hop {
        Hop::Element(element) => (element as usize) < parts.elements.len(),
        Hop::Check(check) => has_notifier(parts, check as usize),
    }
}

fn has_notifier(parts: &Parts, check: usize) -> bool
    ensures { IsTrue result ↔ ((check < length parts.now.checks.items) × IsSome (notifier_at parts.now.checks.items check)) }
{
    check < parts.checks.len() && parts.checks[check].notifier.is_some()
}

/// The net that a hop drives.
pub fn driven(parts: &Parts, hop: Hop) -> Option<NetId>
    requires { IsHop (circuit_seen parts.now) hop }
    ensures { result ≡ net_driven (circuit_seen parts.now) hop }
{
    match hop {
        Hop::Element(element) => Some(parts.elements[element as usize].output),
        Hop::Check(check) => parts.checks[check as usize].notifier,
    }
}

fn is_among(net: NetId, nets: &[NetId]) -> bool
    ensures { result ≡ has net nets.now }
{
    nets.contains(&net)
}

fn is_datum(parts: &Parts, net: NetId, check: usize) -> bool
    requires closed { IsClosed (circuit_seen parts.now) }
    requires check { check < length parts.now.check_timings.items }
    ensures { result ≡ has net (datum_nets (check_at (adjusted_checks (circuit_seen parts.now)) check).datum) }
{
    match datum_net(parts, check) {
        Some(datum) => datum == net,
        None => false,
    }
}

// Whether a timing check sees events at a net.
fn is_terminal(parts: &Parts, net: NetId, check: usize) -> bool
    requires closed { IsClosed (circuit_seen parts.now) }
    requires check { check < length parts.now.check_timings.items }
    ensures { result ≡ has net (terminals (check_at (adjusted_checks (circuit_seen parts.now)) check)) }
{
    refer_net(parts, check) == net || is_datum(parts, net, check)
}

// Whether a hop reads a net.
fn reads_net(parts: &Parts, net: NetId, hop: Hop) -> bool
    requires closed { IsClosed (circuit_seen parts.now) }
    requires hop { IsHop (circuit_seen parts.now) hop }
    ensures { result ≡ has net (nets_read (circuit_seen parts.now) hop) }
{
    match hop {
        Hop::Element(element) => is_among(net, &parts.elements[element as usize].inputs),
        Hop::Check(check) => is_terminal(parts, net, check as usize),
    }
}

// Whether a hop reads the net that another drives.
pub fn reads(parts: &Parts, before: Hop, hop: Hop) -> bool
    requires closed { IsClosed (circuit_seen parts.now) }
    requires before { IsHop (circuit_seen parts.now) before }
    requires hop { IsHop (circuit_seen parts.now) hop }
    ensures { IsTrue result ↔ Reads (circuit_seen parts.now) before hop }
{
    match driven(parts, before) {
        Some(net) => reads_net(parts, net, hop),
        None => false,
    }
}
