// The nets of a simulation, and how what is due in a round changes them: the nets that change are kept in a list.
ghost use Rattle.std.specs.Prelude.{◌≡◌, ◌++◌, ◌<◌, ◌≤◌, ◌^◌, All, IfOk, length, map, slice_set, None, replicate};
ghost use Rattle.std.specs.Vec.{vec_capacity};
ghost use Rattle.sg_logic.specs.Values.{is_same};
ghost use Rattle.sg_model.specs.Agenda.{NothingBelow, AllRise};
ghost use Rattle.sg_model.specs.Machine.{AreOutputs};
ghost use Rattle.sg_model.specs.Round.{changed_by, due_changes, each_from, stamp_after, without_due};
ghost use Rattle.sg_stimulus.specs.Seen.{set_seen};
ghost use Rattle.fan_round.specs.Nets.{stamp_seen, AreChanged, AreNets};

use crate::lists::{add, remove};
use crate::stamps::Stamp;
use pulse_list::Agenda;
use sg_logic::Value;
use sg_stimulus::Set;
use sg_text::NoMemory;
use std::alloc::Global;

/// The values of all nets and those before the last round, each net's last change, and the nets that the last round
/// changed.
#[derive(Drop)]
pub struct Nets {
    pub values: Vec<Value>,
    pub before: Vec<Value>,
    pub stamps: Vec<Option<Stamp>>,
    pub changed: Vec<u32>,
}

impl Nets {
    /// Nets with these values, which no round has changed.
    pub fn new(alloc: Global, values: &[Value]) -> Result<Nets, NoMemory>
        ensures nets { IfOk result (λ nets. AreNets nets) }
        ensures values { IfOk result (λ nets. nets.values.items ≡ values.now) }
        ensures before { IfOk result (λ nets. nets.before.items ≡ values.now) }
        ensures stamps { IfOk result (λ nets. nets.stamps.items ≡ replicate (length values.now) None) }
    {
        Ok(Nets {
            values: Vec::from_slice(alloc, values)?,
            before: Vec::from_slice(alloc, values)?,
            stamps: vec![in alloc; None; values.len()]?,
            changed: Vec::with_capacity(alloc, values.len())?,
        })
    }
}

// Whether two values are the same.
fn same(a: Value, b: Value) -> bool
    ensures { result ≡ is_same a b }
{
    a == b
}

// A net takes a value, and the list follows.
fn set_value(values: &mut [Value], before: &[Value], changed: &mut Vec<u32>, net: u32, value: Value)
    requires net { net < length values.old }
    requires room { length values.old ≤ vec_capacity changed.old }
    requires changed { AreChanged before.now values.old changed.old.items }
    ensures values { values.new ≡ slice_set values.old net value }
    ensures changed { AreChanged before.now values.new changed.new.items }
    ensures capacity { vec_capacity changed.old ≤ vec_capacity changed.new }
{
    let old = values[net as usize];
    let first = before[net as usize];
    values[net as usize] = value;
    if same(old, first) {
        if !same(first, value) {
            add(changed, net);
        }
    } else if same(first, value) {
        remove(changed, net);
    }
}

// The changes take effect.
fn apply(values: &mut [Value], before: &[Value], changed: &mut Vec<u32>, changes: &[Set])
    requires nets { All (λ c. c.net < length values.old) changes.now }
    requires room { length values.old ≤ vec_capacity changed.old }
    requires changed { AreChanged before.now values.old changed.old.items }
    ensures values { values.new ≡ changed_by (map (λ c. set_seen c) changes.now) values.old }
    ensures changed { AreChanged before.now values.new changed.new.items }
    ensures capacity { vec_capacity changed.old ≤ vec_capacity changed.new }
{
    for change in changes {
        set_value(values, before, changed, change.net, change.value);
    }
}

// The transitions that are due are taken, and take effect.
fn take_due<A: Agenda>(
    agenda: &mut A,
    outputs: &[u32],
    now: u64,
    values: &mut [Value],
    before: &[Value],
    changed: &mut Vec<u32>,
)
    requires as_many { length (A.lists agenda.old) ≡ length outputs.now }
    requires outputs { AreOutputs outputs.now }
    requires nets { All (λ net. net < length values.old) outputs.now }
    requires rise { AllRise (A.lists agenda.old) }
    requires below { NothingBelow now (A.lists agenda.old) }
    requires room { length values.old ≤ vec_capacity changed.old }
    requires changed { AreChanged before.now values.old changed.old.items }
    ensures values { values.new ≡ changed_by (due_changes now outputs.now (A.lists agenda.old)) values.old }
    ensures changed { AreChanged before.now values.new changed.new.items }
    ensures capacity { vec_capacity changed.old ≤ vec_capacity changed.new }
    ensures lists { A.lists agenda.new ≡ map (without_due now) (A.lists agenda.old) }
    ensures rise { AllRise (A.lists agenda.new) }
    ensures below { NothingBelow now (A.lists agenda.new) }
{
    while let Some((driver, value)) = agenda.take_due(now) {
        set_value(values, before, changed, outputs[driver as usize], value);
    }
}

// What is due is taken, and takes effect with what is handed in. The list has the nets whose values differ from
// those before.
fn change_values<A: Agenda>(
    agenda: &mut A,
    outputs: &[u32],
    now: u64,
    handed: &[Set],
    values: &mut [Value],
    before: &[Value],
    changed: &mut Vec<u32>,
)
    requires as_many { length (A.lists agenda.old) ≡ length outputs.now }
    requires outputs { AreOutputs outputs.now }
    requires nets { All (λ net. net < length values.old) outputs.now }
    requires handed { All (λ c. c.net < length values.old) handed.now }
    requires rise { AllRise (A.lists agenda.old) }
    requires below { NothingBelow now (A.lists agenda.old) }
    requires room { length values.old ≤ vec_capacity changed.old }
    requires changed { AreChanged before.now values.old changed.old.items }
    ensures values { values.new ≡ changed_by (due_changes now outputs.now (A.lists agenda.old) ++ map (λ c. set_seen c) handed.now) values.old }
    ensures changed { AreChanged before.now values.new changed.new.items }
    ensures capacity { vec_capacity changed.old ≤ vec_capacity changed.new }
    ensures lists { A.lists agenda.new ≡ map (without_due now) (A.lists agenda.old) }
    ensures rise { AllRise (A.lists agenda.new) }
    ensures below { NothingBelow now (A.lists agenda.new) }
{
    take_due(agenda, outputs, now, values, before, changed);
    apply(values, before, changed, handed);
}

// The values before the next round are those after this one: only the changed nets are gone over.
fn settle(before: &mut [Value], values: &[Value], changed: &mut Vec<u32>)
    requires { AreChanged before.old values.now changed.old.items }
    ensures before { before.new ≡ values.now }
    ensures changed { AreChanged before.new values.now changed.new.items }
    ensures capacity { vec_capacity changed.old ≤ vec_capacity changed.new }
{
    for net in changed.iter() {
        before[*net as usize] = values[*net as usize];
    }
    changed.clear();
}

// The nets that changed get stamps: only they are gone over.
fn stamp_nets(
    stamps: &mut [Option<Stamp>],
    changed: &[u32],
    before: &[Value],
    values: &[Value],
    now: u64,
)
    requires as_many { length stamps.old ≡ length before.now }
    requires changed { AreChanged before.now values.now changed.now }
    requires now { now < 2 ^ 60 }
    ensures { map stamp_seen stamps.new ≡ each_from (stamp_after now before.now values.now) 0 (map stamp_seen stamps.old) }
{
    for net in changed {
        let at = *net as usize;
        stamps[at] = Some(Stamp {
            time: now,
            before: before[at],
            after: values[at],
        });
    }
}

/// What is due is taken, and takes effect with what is handed in. The changed nets get stamps.
pub fn change_nets<A: Agenda>(
    nets: &mut Nets,
    agenda: &mut A,
    outputs: &[u32],
    now: u64,
    handed: &[Set],
)
    requires nets { AreNets nets.old }
    requires as_many { length (A.lists agenda.old) ≡ length outputs.now }
    requires outputs { AreOutputs outputs.now }
    requires within { All (λ net. net < length nets.old.values.items) outputs.now }
    requires handed { All (λ c. c.net < length nets.old.values.items) handed.now }
    requires rise { AllRise (A.lists agenda.old) }
    requires below { NothingBelow now (A.lists agenda.old) }
    requires now { now < 2 ^ 60 }
    ensures nets { AreNets nets.new }
    ensures before { nets.new.before.items ≡ nets.old.values.items }
    ensures values { nets.new.values.items ≡ changed_by (due_changes now outputs.now (A.lists agenda.old) ++ map (λ c. set_seen c) handed.now) nets.old.values.items }
    ensures stamps { map stamp_seen nets.new.stamps.items ≡ each_from (stamp_after now nets.old.values.items nets.new.values.items) 0 (map stamp_seen nets.old.stamps.items) }
    ensures lists { A.lists agenda.new ≡ map (without_due now) (A.lists agenda.old) }
    ensures rise { AllRise (A.lists agenda.new) }
    ensures below { NothingBelow now (A.lists agenda.new) }
{
    settle(&mut nets.before, &nets.values, &mut nets.changed);
    change_values(
        agenda,
        outputs,
        now,
        handed,
        &mut nets.values,
        &nets.before,
        &mut nets.changed,
    );
    stamp_nets(
        &mut nets.stamps,
        &nets.changed,
        &nets.before,
        &nets.values,
        now,
    );
}
