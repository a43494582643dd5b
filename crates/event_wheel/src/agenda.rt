// A wheel is an agenda. Nobody counts the steps of these calls.
ghost use Rattle.std.specs.Prelude.{◌≡◌, ◌+◌, ◌<◌, ◌≤◌, [], ◌∷◌, ◌++◌, length, reverse, IfSome, IfNone, OnOk};
ghost use Rattle.std.specs.Bool.{OnTrue, OnFalse};
ghost use Rattle.sg_model.specs.Pending.{last_of, without_last, IsAbove};
ghost use Rattle.sg_model.specs.Agenda.{list_at, with_list, IsTaken, NothingDue, NothingBelow, IsLeastTime, AllEmpty, Rises};

use crate::places::bucket_of;
use crate::wheel::Wheel;
use pulse_list::Agenda;
use sg_logic::Value;
use sg_steps::Steps;
use sg_text::NoMemory;
use std::marker::Brand;
use std::sync::ledger::{Blank, Ledger};

fn append_from<L: Ledger>(wheel: &mut Wheel, driver: u32, time: u64, value: Value, blank: Blank)
    requires name { blank.name ≡ L.name }
    requires parts { blank.parts ≡ L.parts }
    requires some { 0 < blank.parts }
    requires driver { driver < length wheel.old.lists }
    requires room { 0 < wheel.old.spare }
    requires later { IsAbove time (reverse (list_at wheel.old.lists driver)) }
    ensures lists { wheel.new.lists ≡ with_list wheel.old.lists driver (list_at wheel.old.lists driver ++ (time, value) ∷ []) }
    ensures spare { wheel.new.spare + 1 ≡ wheel.old.spare }
    ensures buckets { wheel.new.buckets ≡ wheel.old.buckets }
{
    let mut steps = Steps::<L>::new(blank);
    wheel.chains.put(driver, time, value, &mut steps);
}

fn cancel_from<L: Ledger>(wheel: &mut Wheel, driver: u32, blank: Blank)
    requires name { blank.name ≡ L.name }
    requires parts { blank.parts ≡ L.parts }
    requires some { 0 < blank.parts }
    requires driver { driver < length wheel.old.lists }
    requires pending { 0 < length (list_at wheel.old.lists driver) }
    ensures lists { wheel.new.lists ≡ with_list wheel.old.lists driver (without_last (list_at wheel.old.lists driver)) }
    ensures spare { wheel.old.spare ≤ wheel.new.spare }
    ensures buckets { wheel.new.buckets ≡ wheel.old.buckets }
{
    let mut steps = Steps::<L>::new(blank);
    wheel.cancel(driver, &mut steps);
}

// Whether a driver has a transition.
fn has_any(wheel: &Wheel, driver: u32) -> bool
    requires { driver < length wheel.now.lists }
    ensures yes { OnTrue result (0 < length (list_at wheel.now.lists driver)) }
    ensures no { OnFalse result (list_at wheel.now.lists driver ≡ []) }
{
    wheel.chains.drivers[driver as usize].last.key().is_some()
}

fn clear_from<L: Ledger>(wheel: &mut Wheel, driver: u32, blank: Blank)
    requires name { blank.name ≡ L.name }
    requires parts { blank.parts ≡ L.parts }
    requires some { 0 < blank.parts }
    requires driver { driver < length wheel.old.lists }
    ensures lists { wheel.new.lists ≡ with_list wheel.old.lists driver [] }
    ensures spare { wheel.old.spare ≤ wheel.new.spare }
    ensures buckets { wheel.new.buckets ≡ wheel.old.buckets }
{
    let mut steps = Steps::<L>::new(blank);
    while has_any(wheel, driver) {
        wheel.cancel(driver, &mut steps);
    }
}

fn last_from<L: Ledger>(wheel: &Wheel, driver: u32, blank: Blank) -> Option<(u64, Value)>
    requires name { blank.name ≡ L.name }
    requires parts { blank.parts ≡ L.parts }
    requires some { 0 < blank.parts }
    requires driver { driver < length wheel.now.lists }
    ensures last { result ≡ last_of (list_at wheel.now.lists driver) }
    ensures rising { Rises (reverse (list_at wheel.now.lists driver)) }
{
    let mut steps = Steps::<L>::new(blank);
    match wheel.chains.drivers[driver as usize].last.key() {
        Some(key) => {
            let node = wheel.chains.nodes.read(key, &mut steps);
            Some((node.time, node.value))
        }
        None => None,
    }
}

fn take_due_from<L: Ledger>(wheel: &mut Wheel, now: u64, blank: Blank) -> Option<(u32, Value)>
    requires name { blank.name ≡ L.name }
    requires parts { blank.parts ≡ L.parts }
    requires some { 0 < blank.parts }
    requires below { NothingBelow now wheel.old.lists }
    ensures some { IfSome result (λ answer. IsTaken now wheel.old.lists wheel.new.lists answer) }
    ensures none { IfNone result (NothingDue now wheel.old.lists × (wheel.new.lists ≡ wheel.old.lists)) }
    ensures spare { wheel.old.spare ≤ wheel.new.spare }
    ensures buckets { wheel.new.buckets ≡ wheel.old.buckets }
{
    let mut steps = Steps::<L>::new(blank);
    let bucket = bucket_of(&wheel.chains.buckets, now);
    let Some(key) = wheel.chains.buckets[bucket].first.key() else {
        return None;
    };
    if wheel.chains.nodes.read(key, &mut steps).time != now {
        return None;
    }
    let node = wheel.chains.take(key, &mut steps);
    Some((node.driver, node.value))
}

// Each call has the clauses of `Agenda`, and keeps the number of buckets.
impl Agenda for Wheel {
    ghost lists = { λ w. w.lists };

    ghost spare = { λ w. w.spare };

    fn reserve(&mut self, n: u32) -> Result<(), NoMemory>
        ensures room { OnOk result (n ≤ self.new.spare) }
        ensures lists { self.new.lists ≡ self.old.lists }
        ensures spare { self.old.spare ≤ self.new.spare }
        ensures buckets { self.new.buckets ≡ self.old.buckets }
    {
        self.chains.nodes.reserve(n)?;
        self.chains.runs.reserve(self.chains.nodes.keys())
    }

    fn append(&mut self, driver: u32, time: u64, value: Value)
        requires driver { driver < length self.old.lists }
        requires room { 0 < self.old.spare }
        requires later { IsAbove time (reverse (list_at self.old.lists driver)) }
        ensures lists { self.new.lists ≡ with_list self.old.lists driver (list_at self.old.lists driver ++ (time, value) ∷ []) }
        ensures spare { self.new.spare + 1 ≡ self.old.spare }
        ensures buckets { self.new.buckets ≡ self.old.buckets }
    {
        append_from::<Brand>(self, driver, time, value, Blank::new(1));
    }

    fn drop_last(&mut self, driver: u32)
        requires driver { driver < length self.old.lists }
        requires some { 0 < length (list_at self.old.lists driver) }
        ensures lists { self.new.lists ≡ with_list self.old.lists driver (without_last (list_at self.old.lists driver)) }
        ensures spare { self.old.spare ≤ self.new.spare }
        ensures buckets { self.new.buckets ≡ self.old.buckets }
    {
        cancel_from::<Brand>(self, driver, Blank::new(1));
    }

    fn clear(&mut self, driver: u32)
        requires driver { driver < length self.old.lists }
        ensures lists { self.new.lists ≡ with_list self.old.lists driver [] }
        ensures spare { self.old.spare ≤ self.new.spare }
        ensures buckets { self.new.buckets ≡ self.old.buckets }
    {
        clear_from::<Brand>(self, driver, Blank::new(1));
    }

    fn last(&self, driver: u32) -> Option<(u64, Value)> {
        last_from::<Brand>(self, driver, Blank::new(1))
    }

    fn take_due(&mut self, now: u64) -> Option<(u32, Value)>
        requires { NothingBelow now self.old.lists }
        ensures some { IfSome result (λ answer. IsTaken now self.old.lists self.new.lists answer) }
        ensures none { IfNone result (NothingDue now self.old.lists × (self.new.lists ≡ self.old.lists)) }
        ensures spare { self.old.spare ≤ self.new.spare }
        ensures buckets { self.new.buckets ≡ self.old.buckets }
    {
        take_due_from::<Brand>(self, now, Blank::new(1))
    }

    /// The time of the earliest transition of all. None is below it.
    fn least(&mut self) -> Option<u64>
        ensures some { IfSome result (λ time. IsLeastTime self.old.lists time) }
        ensures none { IfNone result (AllEmpty self.old.lists) }
        ensures below { IfSome result (λ time. NothingBelow time self.old.lists) }
        ensures lists { self.new.lists ≡ self.old.lists }
        ensures spare { self.old.spare ≤ self.new.spare }
        ensures buckets { self.new.buckets ≡ self.old.buckets }
    {
        self.chains.firsts[1]
    }
}
