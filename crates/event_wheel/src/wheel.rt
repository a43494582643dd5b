// The wheel.
ghost use Rattle.std.specs.Prelude.{◌≡◌, ◌+◌, ◌<◌, ◌≤◌, [], length, IfOk, replicate};
ghost use Rattle.sg_model.specs.Pending.{without_last};
ghost use Rattle.sg_model.specs.Agenda.{list_at, with_list};
ghost use Rattle.event_wheel.specs.Wheel.{HoldsPairs, IsBucket};

use crate::chains::Chains;
use crate::nodes::Nodes;
use sg_steps::Steps;
use sg_text::NoMemory;
use std::alloc::Global;
use std::marker::Model;
use std::sync::ledger::Ledger;

/// An agenda whose transitions stand in buckets: that of time t in bucket t modulo their number. What is due is found at
/// the front of its bucket, the least time is at hand, and one is dropped wherever it stands. Where a bucket's first node
/// changes, a tree follows at log2 of twice the buckets places, at most 21.
///
/// In a bucket times don't fall, and a new transition is put behind all that are as early. Its place is looked for from
/// the one last put in or from the front, and each run of equal times is passed in one step: a search takes as many steps
/// as its bucket has distinct times, at most.
///
/// Its memory is in proportion to the buckets, the drivers and the transitions that are pending or reserved.
#[derive(Drop)]
pub struct Wheel {
    pub(crate) chains: Chains,
}

impl Model for Wheel {
    ghost use Rattle.event_wheel.specs.Wheel.{WheelView};

    ghost Value = { WheelView };

    ghost use Rattle.event_wheel.specs.Kept.{view_of, IsWheel};

    ghost view = { λ w. view_of w.chains.nodes w.chains.buckets.items w.chains.drivers.items };

    ghost invariant = { λ w. IsWheel w.chains.nodes w.chains.buckets.items w.chains.drivers.items w.chains.near.items w.chains.firsts.items };
}

impl Wheel {
    /// A wheel of so many buckets, from 1 to 1048576, and so many drivers, with nothing pending and no room.
    ///
    /// `NoMemory` where there is no memory for them.
    pub fn new(alloc: Global, buckets: u32, drivers: u32) -> Result<Wheel, NoMemory>
        requires some { 1 ≤ buckets }
        requires most { buckets ≤ 1048576 }
        ensures lists { IfOk result (λ wheel. wheel.lists ≡ replicate drivers []) }
        ensures buckets { IfOk result (λ wheel. wheel.buckets ≡ buckets) }
    {
        Ok(Wheel {
            chains: Chains::new(alloc, buckets, drivers)?,
        })
    }

    /// How many buckets it has.
    pub fn buckets(&self) -> u32
        ensures { result ≡ self.now.buckets }
    {
        self.chains.buckets.len() as u32
    }

    /// Its nodes: one for each transition that is pending, and no other.
    pub fn nodes(&self) -> &Nodes
        ensures nodes { result.now ≡ self.now.nodes }
        ensures pairs { HoldsPairs result.now self.now.lists }
    {
        &self.chains.nodes
    }

    /// The key of the first node of a bucket. From it each node's link 1 leads through the nodes whose times are the
    /// bucket's number modulo the number of buckets, each once, and no others. None where there is none.
    pub fn first_in_bucket(&self, bucket: u32) -> Option<usize>
        requires { bucket < self.now.buckets }
        ensures { IsBucket self.now.nodes self.now.buckets bucket result }
    {
        self.chains.buckets[bucket as usize].first.key()
    }

    /// Drops the latest transition of `driver`, which has one, in six steps at most.
    pub fn cancel<L: Ledger>(&mut self, driver: u32, steps: &mut Steps<L>)
        requires driver { driver < length self.old.lists }
        requires some { 0 < length (list_at self.old.lists driver) }
        ensures lists { self.new.lists ≡ with_list self.old.lists driver (without_last (list_at self.old.lists driver)) }
        ensures spare { self.old.spare ≤ self.new.spare }
        ensures buckets { self.new.buckets ≡ self.old.buckets }
        ensures steps { steps.new ≤ steps.old + 6 }
    {
        if let Some(key) = self.chains.drivers[driver as usize].last.key() {
            self.chains.take(key, steps);
        }
    }
}
