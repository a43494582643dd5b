// The least time of all, by a tree over the first times of buckets. Place 1 has it, and what is below place p stands at
// 2p and 2p + 1. With n buckets the time of bucket b stands at n + b, so a bucket that changes changes log2(2n) places at most.
ghost use Rattle.std.specs.Prelude.{◌≡◌, ◌+◌, ◌<◌, ◌≤◌, length, IsSome};
ghost use Rattle.std.specs.Option.{ForSome};
ghost use Rattle.event_wheel.specs.Slots.{node_at};
ghost use Rattle.event_wheel.specs.Kept.{AreBuckets};
ghost use Rattle.event_wheel.specs.Least.{lesser_of, time_of, IsTree, HasSet, AreFirsts, AreOtherFirsts};

use crate::chains::Ends;
use crate::link::Link;
use crate::nodes::Nodes;
use sg_steps::Steps;
use std::sync::ledger::Ledger;

// The lesser of two times, where there are such.
fn lesser(one: Option<u64>, other: Option<u64>) -> Option<u64>
    ensures { result ≡ lesser_of one other }
{
    match (one, other) {
        (Some(one), Some(other)) => Some(one.min(other)),
        (Some(one), None) => Some(one),
        (None, other) => other,
    }
}

// Sets the time of one of so many buckets, and what stands above it. Above a place that stays, everything does.
fn set_time(tree: &mut [Option<u64>], buckets: usize, bucket: usize, time: Option<u64>)
    requires tree { IsTree tree.old buckets }
    requires bucket { bucket < buckets }
    ensures { HasSet tree.old tree.new buckets bucket time }
{
    let mut place = buckets + bucket;
    if tree[place] == time {
        return;
    }
    tree[place] = time;
    while place > 1 {
        place /= 2;
        let least = lesser(tree[2 * place], tree[2 * place + 1]);
        if tree[place] == least {
            return;
        }
        tree[place] = least;
    }
}

// The time of the node at a key, if there is one.
fn time_of<L: Ledger>(nodes: &Nodes, key: Link, steps: &mut Steps<L>) -> Option<u64>
    requires { ForSome key (λ k. IsSome (node_at nodes.now k)) }
    ensures time { result ≡ time_of (node_at nodes.now) key }
    ensures steps { steps.new ≤ steps.old + 1 }
{
    match key.key() {
        Some(key) => Some(nodes.read(key, steps).time),
        None => None,
    }
}

/// Notes the time of a bucket's first node anew, where nothing stands before the place at which its chain changed.
pub fn note_first<L: Ledger>(
    tree: &mut [Option<u64>],
    nodes: &Nodes,
    buckets: &[Ends],
    bucket: usize,
    before: Link,
    steps: &mut Steps<L>,
)
    requires bucket { bucket < length buckets.now }
    requires buckets { AreBuckets (node_at nodes.now) buckets.now }
    requires others { AreOtherFirsts (node_at nodes.now) buckets.now tree.old bucket before }
    ensures firsts { AreFirsts (node_at nodes.now) buckets.now tree.new }
    ensures steps { steps.new ≤ steps.old + 1 }
{
    if before.is_none() {
        let time = time_of(nodes, buckets[bucket].first, steps);
        set_time(tree, buckets.len(), bucket, time);
    }
}
