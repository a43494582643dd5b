// The bounds of a circuit's nets, or a cycle.
ghost use Rattle.std.specs.Prelude.{ℕ, ◌≡◌, ◌<◌, ◌^◌, IfOk, MatchOption, length, map, reverse};
ghost use Rattle.settle_bound.specs.Linked.{hop_of};
ghost use Rattle.settle_bound.specs.Orders.{at};
ghost use Rattle.settle_bound.specs.Settling.{Settles};
ghost use Rattle.settle_bound.specs.Staying.{HoldsOfRuns};

use crate::Hop;
use crate::links::collect_ways;
use crate::orders::order_nets;
use crate::rings::find_ring;
use sg_circuit::{Circuit, NetId};
use sg_text::NoMemory;
use std::alloc::Global;

/// What `settle` finds.
#[derive(Drop)]
pub enum Settled {
    /// The bound of each net, in ticks: so long after the last set of a stimulus it may change.
    Bounds(Vec<u128>),
    /// Hops, each of which reads the net that the one before it drives, and the first that which the last drives.
    Cycle(Vec<Hop>),
}

// A net that waits for others.
fn first_waiting(waits: &[u32]) -> Option<NetId>
    requires { length waits.now < 2 ^ 31 }
    ensures { MatchOption result ((net : ℕ) → net < length waits.now → at waits.now net ≡ 0) (λ net. (net < length waits.now) × (0 < at waits.now net)) }
{
    for (net, wait) in waits.iter().enumerate() {
        if *wait > 0 {
            return Some(net as u32);
        }
    }
    None
}

fn hop_of(elements: u32, number: u32) -> Hop
    ensures { result ≡ hop_of elements number }
{
    if number < elements {
        Hop::Element(number)
    } else {
        Hop::Check(number - elements)
    }
}

// The hops of some numbers, the last first.
fn hops_of(alloc: Global, elements: u32, numbers: &[u32]) -> Result<Vec<Hop>, NoMemory>
    ensures { IfOk result (λ hops. hops.items ≡ map (hop_of elements) (reverse numbers.now)) }
{
    let mut hops = Vec::with_capacity(alloc, numbers.len())?;
    for place in 0..numbers.len() {
        hops.push(hop_of(elements, numbers[numbers.len() - 1 - place]))?;
    }
    Ok(hops)
}

/// The bound of each net: the greatest sum of delays on the ways that a change can take to it. Where such a way leads back to where
/// it began, a cycle. It takes time and memory in proportion to nets, checks, and inputs and delays of elements.
///
/// `NoMemory` where there is no memory for it, or where the elements and checks have 2^32 inputs.
pub fn settle(alloc: Global, circuit: &Circuit) -> Result<Settled, NoMemory>
    ensures found { IfOk result (λ settled. Settles circuit.now settled) }
    ensures runs { IfOk result (λ settled. HoldsOfRuns circuit.now settled) }
{
    let elements = circuit.parts().elements.len() as u32;
    let ways = collect_ways(alloc, circuit)?;
    let order = order_nets(alloc, &ways)?;
    match first_waiting(&order.waits) {
        None => Ok(Settled::Bounds(order.bounds)),
        Some(start) => {
            let ring = find_ring(alloc, &ways, &order, start)?;
            Ok(Settled::Cycle(hops_of(alloc, elements, &ring)?))
        }
    }
}
