// The store of nodes.
ghost use Rattle.std.specs.Prelude.{◌≡◌, ℕ, ◌+◌, ◌-◌, ◌^◌, ◌<◌, ◌≤◌, [], IsSome, OnOk};
ghost use Rattle.std.specs.Bool.{OnTrue, OnFalse};
ghost use Rattle.event_wheel.specs.Slots.{node_at, Puts, link_of, with_link};
ghost use Rattle.event_wheel.specs.declared.nodes.Node.{Node as NodeShown};

use crate::link::Link;
use sg_logic::Value;
use sg_steps::Steps;
use sg_text::NoMemory;
use slab::Slab;
use std::alloc::Global;
use std::marker::Model;
use std::mem::size_of;
use std::sync::ledger::Ledger;

/// A pending transition. Its links are the keys of its neighbours: before and after it in its bucket, then before and
/// after it among its driver's transitions.
#[derive(Clone, Copy, Debug)]
pub struct Node {
    pub driver: u32,
    pub value: Value,
    pub time: u64,
    pub links: [Link; 4],
}

const _: () = prove!(size_of::<Node>() == 48);

impl Node {
    /// One of its four links.
    pub fn link(&self, side: u32) -> Link
        requires { side < 4 }
        ensures { result ≡ link_of self.now side }
    {
        self.links[side as usize]
    }
}

/// Nodes under keys. Each call but `new`, `reserve`, `is_empty` and `keys` touches the one node that it names, and takes one
/// step. Only `reserve` takes memory.
#[derive(Drop)]
pub struct Nodes {
    slab: Slab<Node>,
}

impl Model for Nodes {
    ghost use Rattle.std.specs.Prelude.{◌-◌};
    ghost use Rattle.slab.specs.Slab.{slab_len};
    ghost use Rattle.event_wheel.specs.Slots.{Held};

    ghost Value = { Held };

    ghost view = { λ n. record { slots = n.slab.slots; room = n.slab.capacity - slab_len n.slab } };
}

impl Nodes {
    /// No nodes, and no room.
    pub fn new(alloc: Global) -> Nodes
        ensures { result.slots ≡ [] }
    {
        Nodes {
            slab: Slab::new(alloc),
        }
    }

    /// Makes room for `n` calls of `add`. `NoMemory` where there is no memory for them. The nodes stay, and room that
    /// was there already.
    pub fn reserve(&mut self, n: u32) -> Result<(), NoMemory>
        ensures room { OnOk result (n ≤ self.new.room) }
        ensures slots { self.new.slots ≡ self.old.slots }
        ensures spare { self.old.room ≤ self.new.room }
    {
        Ok(self.slab.reserve(n as usize)?)
    }

    /// Whether no key has a node.
    pub fn is_empty(&self) -> bool
        ensures yes { OnTrue result ((key : ℕ) → node_at self.now key ≡ None) }
        ensures no { OnFalse result ((key : ℕ) × IsSome (node_at self.now key)) }
    {
        self.slab.is_empty()
    }

    /// The node at a key that has one.
    pub fn read<L: Ledger>(&self, key: usize, steps: &mut Steps<L>) -> Node
        requires { IsSome (node_at self.now key) }
        ensures node { node_at self.now key ≡ Some result }
        ensures steps { steps.new ≡ steps.old + 1 }
    {
        steps.tick();
        self.slab[key]
    }

    /// The node at a key, if there is one.
    pub fn get<L: Ledger>(&self, key: usize, steps: &mut Steps<L>) -> Option<Node>
        ensures node { result ≡ node_at self.now key }
        ensures steps { steps.new ≡ steps.old + 1 }
    {
        steps.tick();
        self.slab.get(key).copied()
    }

    /// How many keys can have nodes before more room is made.
    pub fn keys(&self) -> usize {
        self.slab.capacity()
    }

    /// Sets one of the four links of the node at a key that has one.
    pub fn link<L: Ledger>(&mut self, key: usize, side: u32, to: Link, steps: &mut Steps<L>)
        requires key { IsSome (node_at self.old key) }
        requires side { side < 4 }
        ensures node { (node : NodeShown) → node_at self.old key ≡ Some node → Puts self.old self.new key (Some (with_link node side to)) }
        ensures room { self.new.room ≡ self.old.room }
        ensures steps { steps.new ≡ steps.old + 1 }
    {
        steps.tick();
        let node = &mut self.slab[key];
        node.links[side as usize] = to;
    }

    /// Stores a node, in room that was reserved, and answers its key, which had none.
    pub fn add<L: Ledger>(&mut self, node: Node, steps: &mut Steps<L>) -> usize
        requires { 0 < self.old.room }
        ensures below { result < 2 ^ 64 - 1 }
        ensures vacant { node_at self.old result ≡ None }
        ensures node { Puts self.old self.new result (Some node) }
        ensures room { self.new.room + 1 ≡ self.old.room }
        ensures steps { steps.new ≡ steps.old + 1 }
    {
        steps.tick();
        let key = self.slab.insert_reserved(node);
        // the key is below this, which is a usize
        let _ = self.slab.capacity();
        key
    }

    /// Takes the node at a key that has one out of the store.
    pub fn remove<L: Ledger>(&mut self, key: usize, steps: &mut Steps<L>) -> Node
        requires { IsSome (node_at self.old key) }
        ensures node { node_at self.old key ≡ Some result }
        ensures gone { Puts self.old self.new key None }
        ensures room { self.old.room ≤ self.new.room }
        ensures steps { steps.new ≡ steps.old + 1 }
    {
        steps.tick();
        self.slab.remove(key)
    }
}
