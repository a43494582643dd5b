// A cycle, where nets wait for one another.
ghost use Rattle.std.specs.Prelude.{ℕ, ◌≡◌, ◌<◌, IfOk, length, slice_index_or, true};
ghost use Rattle.sg_circuit.specs.FanOut.{has};
ghost use Rattle.settle_bound.specs.Links.{link_at, AreWays};
ghost use Rattle.settle_bound.specs.Orders.{at, IsOrderOf};
ghost use Rattle.settle_bound.specs.Rings.{nets_driven, AreBehind, IsRing, IsWalk, WaitOn};

use crate::orders::Order;
use crate::ways::{Link, Ways};
use sg_text::NoMemory;
use std::alloc::Global;

// For each net that waits, the place of a pin that leads to it from another that waits; for other nets, any.
fn pins_behind(alloc: Global, ways: &Ways, waits: &[u32]) -> Result<Vec<u32>, NoMemory>
    requires ways { AreWays ways.now }
    requires each { length waits.now ≡ ways.now.nets }
    ensures { IfOk result (λ back. AreBehind ways.now waits.now (length ways.now.pins.items) back.items) }
{
    let mut back = vec![in alloc; 0u32; ways.nets as usize]?;
    for (place, pin) in ways.pins.iter().enumerate() {
        if waits[pin.net as usize] > 0 {
            back[ways.links[pin.element as usize].driven as usize] = place as u32;
        }
    }
    Ok(back)
}

/// Hops, by their numbers, each of which reads the net that the next one drives; and the net that the last one reads.
#[derive(Drop)]
pub struct Walk {
    pub hops: Vec<u32>,
    pub end: u32,
}

// From a net that waits always to one for which it waits, till a net comes again.
fn walk_back(
    alloc: Global,
    ways: &Ways,
    waits: &[u32],
    back: &[u32],
    start: u32,
) -> Result<Walk, NoMemory>
    requires ways { AreWays ways.now }
    requires back { WaitOn ways.now waits.now back.now }
    requires each { length back.now ≡ ways.now.nets }
    requires start { start < ways.now.nets }
    requires waiting { 0 < at waits.now start }
    ensures { IfOk result (λ walk. IsWalk ways.now start walk) }
{
    let mut seen = vec![in alloc; false; ways.nets as usize]?;
    let mut hops = Vec::new(alloc);
    let mut net = start;
    while !seen[net as usize] {
        seen[net as usize] = true;
        let pin = ways.pins[back[net as usize] as usize];
        hops.push(pin.element)?;
        net = pin.net;
    }
    Ok(Walk { hops, end: net })
}

// The place of the first of some hops that drives a net.
fn first_driving(links: &[Link], hops: &[u32], net: u32) -> usize
    requires within { (i : ℕ) → i < length hops.now → slice_index_or hops.now i 0 < length links.now }
    requires some { has net (nets_driven links.now hops.now) ≡ true }
    ensures within { result < length hops.now }
    ensures drives { (link_at links.now (slice_index_or hops.now result 0)).driven ≡ net }
{
    for (place, hop) in hops.iter().enumerate() {
        if links[*hop as usize].driven == net {
            return place;
        }
    }
    0
}

/// Hops, by their numbers, each of which reads the net that the next one drives, and the last that which the first drives.
pub fn find_ring(
    alloc: Global,
    ways: &Ways,
    order: &Order,
    start: u32,
) -> Result<Vec<u32>, NoMemory>
    requires ways { AreWays ways.now }
    requires order { IsOrderOf ways.now order.now order.now.ready.items }
    requires start { start < ways.now.nets }
    requires waiting { 0 < at order.now.waits.items start }
    ensures { IfOk result (λ ring. IsRing ways.now ring.items) }
{
    let back = pins_behind(alloc, ways, &order.waits)?;
    let walk = walk_back(alloc, ways, &order.waits, &back, start)?;
    let first = first_driving(&ways.links, &walk.hops, walk.end);
    Ok(Vec::from_slice(alloc, &walk.hops[first..])?)
}
