// Whether what is pending is in order, and each element has the value that it computes.
ghost use Rattle.std.specs.Prelude.{◌≡◌, ◌≢◌, ◌<◌, ◌↔◌, All, IfNone, IfOk, IfSome, IsTrue, List, length, map};
ghost use Rattle.std.specs.Bool.{OnTrue};
ghost use Rattle.sg_circuit.specs.Closed.{IsClosed};
ghost use Rattle.sg_circuit.specs.Seen.{circuit_seen, AreIndexed};
ghost use Rattle.sg_model.specs.Values.{value_at};
ghost use Rattle.sim_machine.specs.Evaluable.{AreEvaluable};
ghost use Rattle.sim_rounds.specs.Fitting.{AreComputed, AreLast, AreOrdered, HasSizes, HasStates, IsSettled, is_primitive, with_state};
ghost use Rattle.sim_rounds.specs.Moments.{udp_states};
ghost use Rattle.sim_rounds.specs.MomentsSeen.{moment_seen, pending_seen};

use crate::moments::{Moment, Pending};
use sg_circuit::{Element, ElementKind, Parts};
use sg_logic::Value;
use sg_steps::Steps;
use sg_text::NoMemory;
use sim_machine::{Inputs, compile, compute, widest};
use std::alloc::Global;
use std::marker::Brand;
use std::sync::ledger::{Blank, Ledger};
use udp_table::Table;

// The value of the net that each element drives.
fn present_values(
    alloc: Global,
    elements: &[Element],
    nets: &[Value],
) -> Result<Vec<Value>, NoMemory>
    requires { All (λ e. e.output < length nets.now) elements.now }
    ensures { IfOk result (λ v. v.items ≡ map (λ e. value_at nets.now e.output) elements.now) }
{
    let mut values = Vec::with_capacity(alloc, elements.len())?;
    for element in elements {
        values.push(nets[element.output as usize])?;
    }
    Ok(values)
}

// Whether the transitions of each driver come in order, from a time and a value of its own on. If so, it has the time and the
// value of its last one then.
fn follow(pending: &[Pending], times: &mut [u64], values: &mut [Value]) -> bool
    requires times { length times.old ≡ length values.old }
    requires drivers { All (λ p. p.driver < length values.old) pending.now }
    ensures ordered { IsTrue result ↔ AreOrdered times.old values.old (map (λ p. pending_seen p) pending.now) }
    ensures last { OnTrue result (AreLast values.old values.new (map (λ p. pending_seen p) pending.now)) }
{
    for next in pending {
        let driver = next.driver as usize;
        if next.time <= times[driver] {
            return false;
        }
        if next.value == values[driver] {
            return false;
        }
        times[driver] = next.time;
        values[driver] = next.value;
    }
    true
}

// Whether an element is one of a primitive.
fn is_udp(kind: ElementKind) -> bool
    ensures { result ≡ is_primitive kind }
{
    matches!(kind, ElementKind::Udp { .. })
}

// What is left of a list of states behind that of an element, if it begins with it where the element is one of a primitive.
fn behind<'a>(states: &'a [Value], kind: ElementKind, state: Value) -> Option<&'a [Value]>
    ensures some { IfSome result (λ more. states.now ≡ with_state (is_primitive kind) state more.now) }
    ensures none { IfNone result ((more : List Value) → states.now ≢ with_state (is_primitive kind) state more) }
{
    if !is_udp(kind) {
        return Some(states);
    }
    match states {
        [first, more @ ..] if *first == state => Some(more),
        _ => None,
    }
}

// Whether these are the values of the elements of primitives, in the order of the elements.
fn are_states(parts: &Parts, values: &[Value], states: &[Value]) -> bool
    requires { length values.now ≡ length parts.now.elements.items }
    ensures { IsTrue result ↔ (states.now ≡ udp_states (circuit_seen parts.now).elements values.now) }
{
    let mut left = states;
    for (number, element) in parts.elements.iter().enumerate() {
        let Some(more) = behind(left, element.kind, values[number]) else {
            return false;
        };
        left = more;
    }
    left.is_empty()
}

// Whether each element has the value that it computes from the nets as they are, with room for its inputs.
fn agree<L: Ledger>(
    parts: &Parts,
    tables: &[Table],
    nets: &[Value],
    values: &[Value],
    mut inputs: Inputs,
    blank: Blank,
) -> bool
    requires name { blank.name ≡ L.name }
    requires parts { blank.parts ≡ L.parts }
    requires some { 0 < blank.parts }
    requires evaluable { AreEvaluable parts.now tables.now values.now inputs }
    requires nets { length nets.now ≡ length parts.now.nets.items }
    ensures { IsTrue result ↔ AreComputed (circuit_seen parts.now) nets.now values.now }
{
    let mut steps = Steps::<L>::new(blank);
    for (number, item) in parts.elements.iter().enumerate() {
        let value = values[number];
        let computed = compute(
            parts,
            tables,
            item,
            value,
            nets,
            nets,
            &mut inputs,
            &mut steps,
        );
        if computed != value {
            return false;
        }
    }
    true
}

// Whether each element has the value that it computes.
fn are_computed(
    alloc: Global,
    parts: &Parts,
    nets: &[Value],
    values: &[Value],
) -> Result<bool, NoMemory>
    requires closed { IsClosed (circuit_seen parts.now) }
    requires indexed { AreIndexed parts.now }
    requires nets { length nets.now ≡ length parts.now.nets.items }
    requires values { length values.now ≡ length parts.now.elements.items }
    ensures { IfOk result (λ b. IsTrue b ↔ AreComputed (circuit_seen parts.now) nets.now values.now) }
{
    let tables = compile(alloc, &parts.udps)?;
    let width = widest(&parts.elements);
    let before = Vec::with_capacity(alloc, width)?;
    let after = Vec::with_capacity(alloc, width)?;
    let inputs = Inputs { before, after };
    Ok(agree::<Brand>(parts, &tables, nets, values, inputs, Blank::new(1)))
}

// Whether these are the values that the elements compute, and those of primitives are the moment's.
fn has_states(
    alloc: Global,
    parts: &Parts,
    moment: &Moment,
    values: &[Value],
) -> Result<bool, NoMemory>
    requires closed { IsClosed (circuit_seen parts.now) }
    requires indexed { AreIndexed parts.now }
    requires sizes { HasSizes (circuit_seen parts.now) (moment_seen moment.now) }
    requires values { length values.now ≡ length parts.now.elements.items }
    ensures { IfOk result (λ b. IsTrue b ↔ HasStates (circuit_seen parts.now) (moment_seen moment.now) values.now) }
{
    if !are_states(parts, values, &moment.udps) {
        return Ok(false);
    }
    are_computed(alloc, parts, &moment.nets, values)
}

/// Whether what a moment has pending is in order, and each element computed last what it computes from the nets as they are.
pub fn is_settled(alloc: Global, parts: &Parts, moment: &Moment) -> Result<bool, NoMemory>
    requires closed { IsClosed (circuit_seen parts.now) }
    requires indexed { AreIndexed parts.now }
    requires sizes { HasSizes (circuit_seen parts.now) (moment_seen moment.now) }
    ensures { IfOk result (λ b. IsTrue b ↔ IsSettled (circuit_seen parts.now) (moment_seen moment.now)) }
{
    let mut values = present_values(alloc, &parts.elements, &moment.nets)?;
    let mut times = vec![in alloc; moment.time; values.len()]?;
    if !follow(&moment.pending, &mut times, &mut values) {
        return Ok(false);
    }
    has_states(alloc, parts, moment, &values)
}
