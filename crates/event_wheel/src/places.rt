// Looking along the chains of buckets, in which times don't fall.
ghost use Rattle.std.specs.Prelude.{◌≡◌, ℕ, ◌<◌, ◌%◌, List, Some, length};
ghost use Rattle.std.specs.Bool.{OnTrue};
ghost use Rattle.event_wheel.specs.Slots.{node_at};
ghost use Rattle.event_wheel.specs.Places.{IsBucketChain, IsEarlier, IsPlace, IsLater, IsBeyond};

use crate::chains::Ends;
use crate::link::Link;
use crate::nodes::{Node, Nodes};
use crate::runs::Runs;
use sg_steps::Steps;
use std::sync::ledger::Ledger;

// Whether what stands at a key, if anything, is later.
fn is_later<L: Ledger>(nodes: &Nodes, key: Link, time: u64, steps: &mut Steps<L>) -> bool
    ensures { OnTrue result (IsLater (node_at nodes.now) key time) }
{
    let Some(key) = key.key() else {
        return true;
    };
    match nodes.get(key, steps) {
        Some(node) => time < node.time,
        None => false,
    }
}

// Behind the node at a key, or behind the run of equal times that it begins: the last node, and what comes after it.
fn beyond<L: Ledger>(
    nodes: &Nodes,
    runs: &Runs,
    at: Link,
    node: Node,
    steps: &mut Steps<L>,
) -> (Link, Link)
    ensures { (key : ℕ) → at ≡ Some key → IsBeyond (node_at nodes.now) key node result.0 result.1 }
{
    let end = runs.last_of(at);
    let Some(key) = end.key() else {
        return (at, node.links[1]);
    };
    let Some(last) = nodes.get(key, steps) else {
        return (at, node.links[1]);
    };
    if last.time != node.time {
        return (at, node.links[1]);
    }
    if !is_later(nodes, last.links[1], node.time, steps) {
        return (at, node.links[1]);
    }
    (end, last.links[1])
}

// Two neighbours in a bucket's chain, up to which no time is later than this: behind the node that is near, or else at the
// front.
fn start_of<L: Ledger>(
    nodes: &Nodes,
    runs: &Runs,
    first: Link,
    near: Link,
    time: u64,
    steps: &mut Steps<L>,
) -> (Link, Link)
    requires { (keys : List ℕ) × IsBucketChain (node_at nodes.now) keys near first }
    ensures { (keys : List ℕ) → IsBucketChain (node_at nodes.now) keys near first → IsEarlier (node_at nodes.now) keys time result.0 result.1 }
{
    let Some(key) = near.key() else {
        return (Link::none(), first);
    };
    let node = nodes.read(key, steps);
    if time < node.time {
        return (Link::none(), first);
    }
    beyond(nodes, runs, near, node, steps)
}

/// Between which nodes of a bucket's chain, which begins with `first`, a time is put: behind all that are as early. The
/// search goes on from the node that is near, or from the front where that one is later, and passes each run of equal times
/// in one step.
pub fn place_of<L: Ledger>(
    nodes: &Nodes,
    runs: &Runs,
    first: Link,
    near: Link,
    time: u64,
    steps: &mut Steps<L>,
) -> (Link, Link)
    requires { (keys : List ℕ) × IsBucketChain (node_at nodes.now) keys near first }
    ensures { (keys : List ℕ) → IsBucketChain (node_at nodes.now) keys near first → IsPlace (node_at nodes.now) keys time result.0 result.1 }
{
    let (mut before, mut after) = start_of(nodes, runs, first, near, time, steps);
    while let Some(key) = after.key() {
        let node = nodes.read(key, steps);
        if time < node.time {
            return (before, after);
        }
        let next = beyond(nodes, runs, after, node, steps);
        before = next.0;
        after = next.1;
    }
    (before, after)
}

/// Whether the node at a key, if there is one, has this time.
pub fn has_time<L: Ledger>(nodes: &Nodes, key: Link, time: u64, steps: &mut Steps<L>) -> bool {
    let Some(key) = key.key() else {
        return false;
    };
    match nodes.get(key, steps) {
        Some(node) => node.time == time,
        None => false,
    }
}

/// The bucket of a time.
pub fn bucket_of(buckets: &[Ends], time: u64) -> usize
    requires { 0 < length buckets.now }
    ensures { result ≡ time % length buckets.now }
{
    (time % buckets.len() as u64) as usize
}
