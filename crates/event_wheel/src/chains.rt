// The chains of the buckets and of the drivers over one store of nodes.
ghost use Rattle.std.specs.Prelude.{◌≡◌, ◌+◌, ◌<◌, ◌≤◌, [], IsSome, IfOk, length, reverse, replicate};
ghost use Rattle.sg_model.specs.Pending.{IsAbove};
ghost use Rattle.sg_model.specs.Agenda.{list_at};
ghost use Rattle.event_wheel.specs.Slots.{node_at};
ghost use Rattle.event_wheel.specs.Links.{ends_between, known_without};
ghost use Rattle.event_wheel.specs.Kept.{AreChained, HasPut, HasTaken, table_of};
ghost use Rattle.event_wheel.specs.Least.{AreFirsts};

use crate::least::note_first;
use crate::link::Link;
use crate::links::{put_in, take_out};
use crate::nodes::{Node, Nodes};
use crate::places::{bucket_of, has_time, place_of};
use crate::runs::Runs;
use sg_logic::Value;
use sg_steps::Steps;
use sg_text::NoMemory;
use std::alloc::Global;
use std::mem::size_of;
use std::sync::ledger::Ledger;

/// The keys of a chain's ends.
#[derive(Clone, Copy, Debug)]
pub struct Ends {
    pub first: Link,
    pub last: Link,
}

const _: () = prove!(size_of::<Ends>() == 16);

impl Ends {
    /// No chain.
    pub fn none() -> Ends
        ensures first { result.first ≡ None }
        ensures last { result.last ≡ None }
    {
        Ends {
            first: Link::none(),
            last: Link::none(),
        }
    }

    /// Between `before` and `after`, whatever stood there, the chain now begins with `first` and ends with `last`.
    fn join(&mut self, before: Link, after: Link, first: Link, last: Link)
        ensures { self.new ≡ ends_between self.old before after first last }
    {
        if before.is_none() {
            self.first = first;
        }
        if after.is_none() {
            self.last = last;
        }
    }
}

// A key that is known, after this one was taken from between two others.
fn known_without(near: Link, key: usize, before: Link, after: Link) -> Link
    ensures { result ≡ known_without near key before after }
{
    match near.key() {
        Some(known) if known == key => before.or(after),
        _ => near,
    }
}

/// Nodes, each in the chain of its bucket, in order of time, and in that of its driver.
#[derive(Drop)]
pub struct Chains {
    pub nodes: Nodes,
    pub buckets: Vec<Ends>,
    pub drivers: Vec<Ends>,
    // the node of each bucket that was put in last, or one that stood beside it
    pub near: Vec<Link>,
    pub runs: Runs,
    // the tree of the least times
    pub firsts: Vec<Option<u64>>,
}

impl Chains {
    /// No nodes, in so many buckets and for so many drivers.
    pub fn new(alloc: Global, buckets: u32, drivers: u32) -> Result<Chains, NoMemory>
        requires { 0 < buckets }
        ensures chained { IfOk result (λ chains. AreChained chains.nodes chains.buckets.items chains.drivers.items chains.near.items) }
        ensures firsts { IfOk result (λ chains. AreFirsts (node_at chains.nodes) chains.buckets.items chains.firsts.items) }
        ensures table { IfOk result (λ chains. table_of chains.nodes chains.drivers.items ≡ replicate drivers []) }
        ensures buckets { IfOk result (λ chains. length chains.buckets.items ≡ buckets) }
    {
        Ok(Chains {
            nodes: Nodes::new(alloc),
            buckets: vec![in alloc; Ends::none(); buckets as usize]?,
            drivers: vec![in alloc; Ends::none(); drivers as usize]?,
            near: vec![in alloc; Link::none(); buckets as usize]?,
            runs: Runs::new(alloc),
            firsts: vec![in alloc; None; 2 * buckets as usize]?,
        })
    }

    /// Puts a driver's new latest transition into the chains.
    pub fn put<L: Ledger>(&mut self, driver: u32, time: u64, value: Value, steps: &mut Steps<L>)
        requires chained { AreChained self.old.nodes self.old.buckets.items self.old.drivers.items self.old.near.items }
        requires firsts { AreFirsts (node_at self.old.nodes) self.old.buckets.items self.old.firsts.items }
        requires driver { driver < length self.old.drivers.items }
        requires room { 0 < self.old.nodes.room }
        requires later { IsAbove time (reverse (list_at (table_of self.old.nodes self.old.drivers.items) driver)) }
        ensures put { HasPut self.old.nodes self.old.buckets.items self.old.drivers.items self.new.nodes self.new.buckets.items self.new.drivers.items self.new.near.items driver (time, value) }
        ensures firsts { AreFirsts (node_at self.new.nodes) self.new.buckets.items self.new.firsts.items }
        ensures room { self.new.nodes.room + 1 ≡ self.old.nodes.room }
    {
        let bucket = bucket_of(&self.buckets, time);
        let (near, first) = (self.near[bucket], self.buckets[bucket].first);
        let (before, after) = place_of(&self.nodes, &self.runs, first, near, time, steps);
        let joins = has_time(&self.nodes, before, time, steps);
        let last = self.drivers[driver as usize].last;
        let none = Link::none();
        let node = Node {
            driver,
            time,
            value,
            links: [before, after, last, none],
        };
        let key = put_in(&mut self.nodes, node, steps);
        let link = Link::to(key);
        self.buckets[bucket].join(before, after, link, link);
        self.drivers[driver as usize].join(last, none, link, link);
        self.near[bucket] = link;
        self.runs.put(link, if joins { before } else { none });
        note_first(
            &mut self.firsts,
            &self.nodes,
            &self.buckets,
            bucket,
            before,
            steps,
        );
    }

    /// Takes a node out of the store and out of its chains.
    pub fn take<L: Ledger>(&mut self, key: usize, steps: &mut Steps<L>) -> Node
        requires chained { AreChained self.old.nodes self.old.buckets.items self.old.drivers.items self.old.near.items }
        requires firsts { AreFirsts (node_at self.old.nodes) self.old.buckets.items self.old.firsts.items }
        requires key { IsSome (node_at self.old.nodes key) }
        ensures taken { HasTaken self.old.nodes self.old.buckets.items self.old.drivers.items self.new.nodes self.new.buckets.items self.new.drivers.items self.new.near.items key result }
        ensures firsts { AreFirsts (node_at self.new.nodes) self.new.buckets.items self.new.firsts.items }
        ensures room { self.old.nodes.room ≤ self.new.nodes.room }
        ensures steps { steps.new ≤ steps.old + 6 }
    {
        let node = take_out(&mut self.nodes, key, steps);
        let before = node.link(0);
        let after = node.link(1);
        let previous = node.link(2);
        let next = node.link(3);
        let bucket = bucket_of(&self.buckets, node.time);
        self.buckets[bucket].join(before, after, after, before);
        self.drivers[node.driver as usize].join(previous, next, next, previous);
        self.near[bucket] = known_without(self.near[bucket], key, before, after);
        self.runs.take(key, before, after);
        note_first(
            &mut self.firsts,
            &self.nodes,
            &self.buckets,
            bucket,
            before,
            steps,
        );
        node
    }
}
