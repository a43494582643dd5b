// The timing checks that may see something: those with a terminal on a net that changed.
ghost use Rattle.std.specs.Prelude.{◌≡◌, ◌++◌, ◌∷◌, ◌+◌, ◌<◌, ◌≤◌, ◌^◌, [], false, All, IfOk, OnOk, length, map, replicate};
ghost use Rattle.std.specs.List.{filter};
ghost use Rattle.std.specs.List.Sorted.{IsNonDecreasing, IsPermutation};
ghost use Rattle.std.specs.Vec.{vec_capacity};
ghost use Rattle.sg_circuit.specs.FanOut.{IsFanOut};
ghost use Rattle.sg_circuit.specs.Pins.{pins_from, pins_of};
ghost use Rattle.fan_round.specs.States.{IsIdle};
ghost use Rattle.fan_round.specs.Work.{with_marks, with_readers, AreMarked, AreReaders};
ghost use Rattle.time_checks.specs.AdjustedSeen.{adjusted_seen, all_seen};
ghost use Rattle.time_checks.specs.Watching.{change_number_at, taken_fan, takes};
ghost use Rattle.time_checks.specs.Within.{terminals, IsCheckWithin};

use crate::adjusted::AdjustedCheck;
use crate::events::change_at;
use crate::watches::Watch;
use fan_round::{WorkList, mark_all};
use sg_circuit::{FanOut, NetId, Pin, add_pins};
use sg_logic::Value;
use sg_text::NoMemory;
use std::alloc::Global;

// The pins of one check's terminals.
fn add_terminals(
    pins: &mut Vec<Pin>,
    seen: &mut [u32],
    number: u32,
    check: &AdjustedCheck<'_>,
) -> Result<(), NoMemory>
    requires within { IsCheckWithin (adjusted_seen check.now) (length seen.old) }
    requires number { number < 2 ^ 31 }
    requires fresh { All (λ s. s ≤ number) seen.old }
    ensures pins { OnOk result (pins.new.items ≡ pins.old.items ++ pins_of number (terminals (adjusted_seen check.now))) }
    ensures fresh { OnOk result (All (λ s. s ≤ number + 1) seen.new) }
{
    match check.timing.datum {
        Some(_) => add_pins(pins, seen, number, &[check.refer, check.datum]),
        None => add_pins(pins, seen, number, &[check.refer]),
    }
}

// The pins of the terminals of all checks.
fn add_all_terminals(
    pins: &mut Vec<Pin>,
    seen: &mut [u32],
    checks: &[AdjustedCheck<'_>],
) -> Result<(), NoMemory>
    requires within { All (λ c. IsCheckWithin (adjusted_seen c) (length seen.old)) checks.now }
    requires few { length checks.now < 2 ^ 31 }
    requires none { pins.old.items ≡ [] }
    requires fresh { seen.old ≡ replicate (length seen.old) 0 }
    ensures { OnOk result (pins.new.items ≡ pins_from 0 (map (λ c. terminals (adjusted_seen c)) checks.now)) }
{
    for (number, check) in checks.iter().enumerate() {
        add_terminals(pins, seen, number as u32, check)?;
    }
    Ok(())
}

fn pins_of_checks(
    alloc: Global,
    nets: u32,
    checks: &[AdjustedCheck<'_>],
) -> Result<Vec<Pin>, NoMemory>
    requires within { All (λ c. IsCheckWithin (adjusted_seen c) nets) checks.now }
    requires few { length checks.now < 2 ^ 31 }
    ensures { IfOk result (λ pins. pins.items ≡ pins_from 0 (map (λ c. terminals (adjusted_seen c)) checks.now)) }
{
    let mut seen = vec![in alloc; 0; nets as usize]?;
    let mut pins = Vec::new(alloc);
    add_all_terminals(&mut pins, &mut seen, checks)?;
    Ok(pins)
}

/// The checks with a terminal on each of so many nets. It takes time and memory in proportion to both.
pub fn index_of(alloc: Global, nets: u32, checks: &[AdjustedCheck<'_>]) -> Result<FanOut, NoMemory>
    requires within { All (λ c. IsCheckWithin (adjusted_seen c) nets) checks.now }
    requires few { length checks.now < 2 ^ 31 }
    ensures checks { IfOk result (λ index. IsFanOut (map (λ c. terminals c) (all_seen checks.now)) index) }
    ensures nets { IfOk result (λ index. length index ≡ nets) }
{
    let pins = pins_of_checks(alloc, nets, checks)?;
    FanOut::of_pins(alloc, nets, &pins)
}

// A check that looks at this change of a net is marked and listed.
fn mark_taken(
    number: u32,
    net: NetId,
    change: u8,
    watches: &[Watch],
    marks: &mut [bool],
    list: &mut Vec<u32>,
)
    requires change { change < 8 }
    requires number { number < length marks.old }
    requires watches { length watches.now ≡ length marks.old }
    requires room { length marks.old ≤ vec_capacity list.old }
    requires marked { AreMarked marks.old list.old.items }
    ensures marks { marks.new ≡ with_marks (filter (takes watches.now net change) (number ∷ [])) marks.old }
    ensures marked { AreMarked marks.new list.new.items }
    ensures capacity { vec_capacity list.old ≤ vec_capacity list.new }
{
    if watches[number as usize].takes(net, change) {
        mark_all(&[number], marks, list);
    }
}

// So is each of some.
fn mark_all_taken(
    numbers: &[u32],
    net: NetId,
    change: u8,
    watches: &[Watch],
    marks: &mut [bool],
    list: &mut Vec<u32>,
)
    requires change { change < 8 }
    requires numbers { All (λ k. k < length marks.old) numbers.now }
    requires watches { length watches.now ≡ length marks.old }
    requires room { length marks.old ≤ vec_capacity list.old }
    requires marked { AreMarked marks.old list.old.items }
    ensures marks { marks.new ≡ with_marks (filter (takes watches.now net change) numbers.now) marks.old }
    ensures marked { AreMarked marks.new list.new.items }
    ensures capacity { vec_capacity list.old ≤ vec_capacity list.new }
{
    for number in numbers {
        mark_taken(*number, net, change, watches, marks, list);
    }
}

// Of these checks, those that look at a net's change between two snapshots; at most nets there is none.
fn mark_at(
    numbers: &[u32],
    net: NetId,
    last: &[Value],
    values: &[Value],
    watches: &[Watch],
    marks: &mut [bool],
    list: &mut Vec<u32>,
)
    requires net { net < length values.now }
    requires as_many { length last.now ≡ length values.now }
    requires numbers { All (λ k. k < length marks.old) numbers.now }
    requires watches { length watches.now ≡ length marks.old }
    requires room { length marks.old ≤ vec_capacity list.old }
    requires marked { AreMarked marks.old list.old.items }
    ensures marks { marks.new ≡ with_marks (filter (takes watches.now net (change_number_at last.now values.now net)) numbers.now) marks.old }
    ensures marked { AreMarked marks.new list.new.items }
    ensures capacity { vec_capacity list.old ≤ vec_capacity list.new }
{
    if numbers.is_empty() {
        return;
    }
    let change = change_at(net, last, values);
    mark_all_taken(numbers, net, change, watches, marks, list);
}

// The checks that look at the change of one of these nets are marked and listed.
fn mark_checks(
    changed: &[NetId],
    last: &[Value],
    values: &[Value],
    index: &FanOut,
    watches: &[Watch],
    marks: &mut [bool],
    list: &mut Vec<u32>,
)
    requires nets { All (λ net. net < length index.now) changed.now }
    requires each_net { length index.now ≡ length values.now }
    requires as_many { length last.now ≡ length values.now }
    requires readers { AreReaders index.now (length marks.old) }
    requires watches { length watches.now ≡ length marks.old }
    requires room { length marks.old ≤ vec_capacity list.old }
    requires marked { AreMarked marks.old list.old.items }
    ensures marks { marks.new ≡ with_readers (taken_fan watches.now last.now values.now index.now) changed.now marks.old }
    ensures marked { AreMarked marks.new list.new.items }
    ensures capacity { vec_capacity list.old ≤ vec_capacity list.new }
{
    for net in changed {
        mark_at(index.of(*net), *net, last, values, watches, marks, list);
    }
}

// The same, and they are put in order.
fn sort_checks(
    changed: &[NetId],
    last: &[Value],
    values: &[Value],
    index: &FanOut,
    watches: &[Watch],
    marks: &mut [bool],
    list: &mut Vec<u32>,
)
    requires nets { All (λ net. net < length index.now) changed.now }
    requires each_net { length index.now ≡ length values.now }
    requires as_many { length last.now ≡ length values.now }
    requires readers { AreReaders index.now (length marks.old) }
    requires watches { length watches.now ≡ length marks.old }
    requires room { length marks.old ≤ vec_capacity list.old }
    requires marked { AreMarked marks.old list.old.items }
    ensures marks { marks.new ≡ with_readers (taken_fan watches.now last.now values.now index.now) changed.now marks.old }
    ensures marked { AreMarked marks.new list.new.items }
    ensures sorted { IsNonDecreasing list.new.items }
    ensures capacity { vec_capacity list.old ≤ vec_capacity list.new }
{
    mark_checks(changed, last, values, index, watches, marks, list);
    list.sort_unstable();
}

/// The checks that look at the change of one of these nets are listed in their order, where none was listed before.
pub fn list_touched(
    changed: &[NetId],
    last: &[Value],
    values: &[Value],
    index: &FanOut,
    watches: &[Watch],
    work: &mut WorkList,
)
    requires nets { All (λ net. net < length index.now) changed.now }
    requires each_net { length index.now ≡ length values.now }
    requires as_many { length last.now ≡ length values.now }
    requires readers { AreReaders index.now (length watches.now) }
    requires idle { IsIdle work.old (length watches.now) }
    ensures marks { work.new.marks.items ≡ with_readers (taken_fan watches.now last.now values.now index.now) changed.now (replicate (length watches.now) false) }
    ensures marked { AreMarked work.new.marks.items work.new.list.items }
    ensures sorted { IsNonDecreasing work.new.list.items }
    ensures capacity { vec_capacity work.old.list ≤ vec_capacity work.new.list }
{
    sort_checks(
        changed,
        last,
        values,
        index,
        watches,
        &mut work.marks,
        &mut work.list,
    );
}
