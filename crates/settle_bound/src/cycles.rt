// Whether hops are a cycle.
ghost use Rattle.std.specs.Prelude.{◌≡◌, ◌≢◌, ◌↔◌, All, IsTrue};
ghost use Rattle.sg_circuit.specs.Closed.{IsClosed};
ghost use Rattle.sg_circuit.specs.Seen.{circuit_seen};
ghost use Rattle.settle_bound.specs.Hops.{IsHop};
ghost use Rattle.settle_bound.specs.Chains.{AreOnce, Follow, IsCycle};

use crate::Hop;
use crate::hops::{is_hop, reads};
use sg_circuit::{Circuit, Parts};

fn are_hops(parts: &Parts, hops: &[Hop]) -> bool
    requires { IsClosed (circuit_seen parts.now) }
    ensures { IsTrue result ↔ All (IsHop (circuit_seen parts.now)) hops.now }
{
    hops.iter().all(|hop| is_hop(parts, *hop))
}

fn differ(one: Hop, other: Hop) -> bool
    ensures { IsTrue result ↔ (one ≢ other) }
{
    match (one, other) {
        (Hop::Element(a), Hop::Element(b)) => a != b,
        (Hop::Check(a), Hop::Check(b)) => a != b,
        _ => true,
    }
}

fn is_apart(hop: Hop, others: &[Hop]) -> bool
    ensures { IsTrue result ↔ All (λ h. hop ≢ h) others.now }
{
    others.iter().all(|other| differ(hop, *other))
}

// Whether no hop stands twice.
fn are_once(hops: &[Hop]) -> bool
    ensures { IsTrue result ↔ AreOnce hops.now }
{
    let mut rest = hops;
    while let [hop, more @ ..] = rest {
        if !is_apart(*hop, more) {
            return false;
        }
        rest = more;
    }
    true
}

// Whether each hop reads the net that the hop before it drives, the first that which another drives.
fn follow(parts: &Parts, first: Hop, hops: &[Hop]) -> bool
    requires closed { IsClosed (circuit_seen parts.now) }
    requires first { IsHop (circuit_seen parts.now) first }
    requires hops { All (IsHop (circuit_seen parts.now)) hops.now }
    ensures { IsTrue result ↔ Follow (circuit_seen parts.now) first hops.now }
{
    let mut before = first;
    for hop in hops {
        if !reads(parts, before, *hop) {
            return false;
        }
        before = *hop;
    }
    true
}

/// Whether some hops are a cycle: at least one, none twice, each of the circuit and, if it is a check, with a notifier, and each
/// reads the net that the one before it drives, the first that which the last drives. It takes time in proportion to the square of
/// their number, and to what they read.
pub fn is_cycle(circuit: &Circuit, hops: &[Hop]) -> bool
    ensures { IsTrue result ↔ IsCycle circuit.now hops.now }
{
    let parts = circuit.parts();
    if !are_hops(parts, hops) {
        return false;
    }
    let Some(last) = hops.last() else {
        return false;
    };
    if !follow(parts, *last, hops) {
        return false;
    }
    are_once(hops)
}
