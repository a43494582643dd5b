// The nets in an order in which each comes behind all from which it may be changed, as far as there is one.
ghost use Rattle.std.specs.Prelude.{ℕ, ◌≡◌, ◌+◌, ◌<◌, ◌≤◌, ◌^◌, [], All, IfOk, OnOk, length};
ghost use Rattle.settle_bound.specs.Links.{link_at, AreWays};
ghost use Rattle.settle_bound.specs.Orders.{at, count_driving, AreAlone, AreCounted, AreReady, IsOrderOf, Released, TakesHop};

use crate::ways::{Link, Ways};
use sg_text::NoMemory;
use std::alloc::Global;

/// How far nets have come.
#[derive(Drop)]
pub struct Order {
    /// The greatest sum of weights on a way to each net that was found so far.
    pub bounds: Vec<u128>,
    /// For how many pins each net waits: those that lead to it from a net that isn't done.
    pub waits: Vec<u32>,
    /// The nets that wait for nothing, in the order in which they came to that.
    pub ready: Vec<u32>,
}

// For how many pins each net waits where no net is done.
fn first_waits(alloc: Global, ways: &Ways) -> Result<Vec<u32>, NoMemory>
    requires { AreWays ways.now }
    ensures counted { IfOk result (λ waits. AreCounted ways.now.links.items ways.now.pins.items waits.items) }
    ensures each { IfOk result (λ waits. length waits.items ≡ ways.now.nets) }
{
    let mut waits = vec![in alloc; 0u32; ways.nets as usize]?;
    for pin in &ways.pins {
        waits[ways.links[pin.element as usize].driven as usize] += 1;
    }
    Ok(waits)
}

// The bounds by each hop alone.
fn first_bounds(alloc: Global, ways: &Ways) -> Result<Vec<u128>, NoMemory>
    requires { AreWays ways.now }
    ensures alone { IfOk result (λ bounds. AreAlone ways.now.links.items ways.now.links.items ways.now.pins.items bounds.items) }
    ensures each { IfOk result (λ bounds. length bounds.items ≡ ways.now.nets) }
{
    let mut bounds = vec![in alloc; 0u128; ways.nets as usize]?;
    for link in &ways.links {
        let net = link.driven as usize;
        bounds[net] = bounds[net].max(u128::from(link.weight));
    }
    Ok(bounds)
}

// The nets that wait for nothing.
fn first_ready(alloc: Global, waits: &[u32]) -> Result<Vec<u32>, NoMemory>
    requires { length waits.now < 2 ^ 31 }
    ensures { IfOk result (λ ready. AreReady (length waits.now) waits.now ready.items) }
{
    let mut ready = Vec::new(alloc);
    for (net, wait) in waits.iter().enumerate() {
        if *wait == 0 {
            ready.push(net as u32)?;
        }
    }
    Ok(ready)
}

// No net is done.
fn begin(alloc: Global, ways: &Ways) -> Result<Order, NoMemory>
    requires { AreWays ways.now }
    ensures { IfOk result (λ order. IsOrderOf ways.now order []) }
{
    let waits = first_waits(alloc, ways)?;
    let bounds = first_bounds(alloc, ways)?;
    let ready = first_ready(alloc, &waits)?;
    Ok(Order {
        bounds,
        waits,
        ready,
    })
}

// One hop to a net, behind a net that is done.
fn release_one(order: &mut Order, before: u128, link: Link) -> Result<(), NoMemory>
    requires bounds { link.driven < length order.old.bounds.items }
    requires waits { link.driven < length order.old.waits.items }
    requires waiting { 0 < at order.old.waits.items link.driven }
    requires before { before < 2 ^ 92 }
    ensures { OnOk result (TakesHop link before order.old order.new) }
{
    let net = link.driven as usize;
    let sum = before + u128::from(link.weight);
    order.bounds[net] = order.bounds[net].max(sum);
    order.waits[net] -= 1;
    if order.waits[net] == 0 {
        order.ready.push(link.driven)?;
    }
    Ok(())
}

// The hops that read a net that is done.
fn release(order: &mut Order, links: &[Link], before: u128, hops: &[u32]) -> Result<(), NoMemory>
    requires hops { All (λ h. h < length links.now) hops.now }
    requires nets { All (λ l. l.driven < length order.old.bounds.items) links.now }
    requires waits { length order.old.waits.items ≡ length order.old.bounds.items }
    requires before { before < 2 ^ 92 }
    requires enough { (net : ℕ) → net < length order.old.waits.items → count_driving links.now net hops.now ≤ at order.old.waits.items net }
    ensures { OnOk result (Released links.now hops.now before order.old order.new) }
{
    for hop in hops {
        release_one(order, before, links[*hop as usize])?;
    }
    Ok(())
}

// Net after net that waits for nothing is done.
fn go_on(order: &mut Order, ways: &Ways) -> Result<(), NoMemory>
    requires ways { AreWays ways.now }
    requires begun { IsOrderOf ways.now order.old [] }
    ensures { OnOk result (IsOrderOf ways.now order.new order.new.ready.items) }
{
    for place in 0..ways.nets as usize {
        if place >= order.ready.len() {
            return Ok(());
        }
        let net = order.ready[place];
        let before = order.bounds[net as usize];
        release(order, &ways.links, before, ways.readers.of(net))?;
    }
    Ok(())
}

/// The bounds of nets, and for how many pins they wait once each net that waits for nothing is done. Those that still wait are behind
/// a cycle, or in one.
pub fn order_nets(alloc: Global, ways: &Ways) -> Result<Order, NoMemory>
    requires { AreWays ways.now }
    ensures { IfOk result (λ order. IsOrderOf ways.now order order.ready.items) }
{
    let mut order = begin(alloc, ways)?;
    go_on(&mut order, ways)?;
    Ok(order)
}
