// Nodes come into chains and go out of them.
ghost use Rattle.std.specs.Prelude.{◌≡◌, ℕ, ◌+◌, ◌-◌, ◌^◌, ◌<◌, ◌≤◌, IsSome};
ghost use Rattle.std.specs.Option.{ForSome};
ghost use Rattle.event_wheel.specs.Slots.{node_at};
ghost use Rattle.event_wheel.specs.Links.{slot_with_link, slot_with_links, store_after_putting, store_after_taking, Becomes, AreNeighbours, HasNeighbours};

use crate::link::Link;
use crate::nodes::{Node, Nodes};
use sg_steps::Steps;
use std::sync::ledger::Ledger;

// Sets a link of the node at a key, if there is one.
fn link_some<L: Ledger>(nodes: &mut Nodes, at: Link, side: u32, to: Link, steps: &mut Steps<L>)
    requires at { ForSome at (λ key. IsSome (node_at nodes.old key)) }
    requires side { side < 4 }
    ensures nodes { Becomes (node_at nodes.old) (node_at nodes.new) (slot_with_link at side to) }
    ensures room { nodes.new.room ≡ nodes.old.room }
    ensures steps { steps.new ≤ steps.old + 1 }
{
    if let Some(key) = at.key() {
        nodes.link(key, side, to, steps);
    }
}

// Two neighbours: what comes after the first, and what comes before the second. The links back have this side, those
// on the next one.
fn relink<L: Ledger>(
    nodes: &mut Nodes,
    before: Link,
    after: Link,
    back: u32,
    next: Link,
    previous: Link,
    steps: &mut Steps<L>,
)
    requires before { ForSome before (λ key. IsSome (node_at nodes.old key)) }
    requires after { ForSome after (λ key. IsSome (node_at nodes.old key)) }
    requires back { back < 3 }
    ensures nodes { Becomes (node_at nodes.old) (node_at nodes.new) (slot_with_links before after back next previous) }
    ensures room { nodes.new.room ≡ nodes.old.room }
    ensures steps { steps.new ≤ steps.old + 2 }
{
    link_some(nodes, before, back + 1, next, steps);
    link_some(nodes, after, back, previous, steps);
}

/// Takes a node out of the store, and out of both of its chains.
pub fn take_out<L: Ledger>(nodes: &mut Nodes, key: usize, steps: &mut Steps<L>) -> Node
    requires key { IsSome (node_at nodes.old key) }
    requires neighbours { HasNeighbours (node_at nodes.old) key }
    ensures node { node_at nodes.old key ≡ Some result }
    ensures nodes { (k : ℕ) → node_at nodes.new k ≡ store_after_taking (node_at nodes.old) key result k }
    ensures room { nodes.old.room ≤ nodes.new.room }
    ensures steps { steps.new ≤ steps.old + 5 }
{
    let node = nodes.remove(key, steps);
    let links = node.links;
    relink(nodes, links[0], links[1], 0, links[1], links[0], steps);
    relink(nodes, links[2], links[3], 2, links[3], links[2], steps);
    node
}

/// Stores a node between its neighbours in both of its chains.
pub fn put_in<L: Ledger>(nodes: &mut Nodes, node: Node, steps: &mut Steps<L>) -> usize
    requires room { 0 < nodes.old.room }
    requires neighbours { AreNeighbours (node_at nodes.old) node.links }
    ensures below { result < 2 ^ 64 - 1 }
    ensures vacant { node_at nodes.old result ≡ None }
    ensures nodes { (k : ℕ) → node_at nodes.new k ≡ store_after_putting (node_at nodes.old) result node k }
    ensures room { nodes.new.room + 1 ≡ nodes.old.room }
{
    let links = node.links;
    let key = nodes.add(node, steps);
    let link = Link::to(key);
    relink(nodes, links[0], links[1], 0, link, link, steps);
    relink(nodes, links[2], links[3], 2, link, link, steps);
    key
}
