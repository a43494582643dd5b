// Which input of a sequential primitive made the step to a new state.
ghost use Rattle.std.specs.Prelude.{◌≡◌, ◌<◌, ◌++◌, [], All, IfOk, OnOk, None, filter_map, if◌then◌else◌, length, map, not, take, drop, suc};
ghost use Rattle.std.specs.List.{cons_option, enumerate_from, last_or};
ghost use Rattle.sg_logic.specs.Values.{is_same};
ghost use Rattle.why_causes.specs.Waveform.{value_before};
ghost use Rattle.why_causes.specs.Candidates.{last_of_each, latest};
ghost use Rattle.why_causes.specs.Causes.{is_step as is_step_of, last_step as last_step_of};
ghost use Rattle.why_causes.specs.Steps.{AreSteps, last_at as last_of_input_at, last_by};

use crate::changes::Candidate;
use crate::inputs::{last_of, latest_of_each};
use crate::traces::Trace;
use sg_circuit::NetId;
use sg_logic::Value;
use sg_text::NoMemory;
use std::alloc::Global;
use udp_rows::UdpRows;

// The values of nets before a time.
fn values_before(
    alloc: Global,
    trace: &Trace<'_>,
    nets: &[NetId],
    time: u64,
) -> Result<Vec<Value>, NoMemory>
    requires { All (λ n. n < length trace.now.first) nets.now }
    ensures { IfOk result (λ values. values.items ≡ map (λ n. value_before trace.now n time) nets.now) }
{
    let mut values = Vec::new(alloc);
    for net in nets {
        values.push(trace.value_before(*net, time))?;
    }
    Ok(values)
}

// Whether two values differ.
fn differ(one: Value, other: Value) -> bool
    ensures { result ≡ not (is_same one other) }
{
    !(one == other)
}

// Whether the state is another once an input, too, has its new value, which it then has.
fn is_step(
    rows: &UdpRows,
    old: &[Value],
    new: &[Value],
    taken: &mut [Value],
    state: Value,
    input: usize,
) -> bool
    requires old { length old.now ≡ rows.now.inputs }
    requires new { length new.now ≡ rows.now.inputs }
    requires input { input < rows.now.inputs }
    requires taken { taken.old ≡ take input new.now ++ drop input old.now }
    ensures step { result ≡ is_step_of rows.now old.now new.now state input }
    ensures taken { taken.new ≡ take (suc input) new.now ++ drop (suc input) old.now }
{
    let before = rows.next(old, taken, state);
    taken[input] = new[input];
    differ(before, rows.next(old, taken, state))
}

// Of each input whether it is a step; `taken` has the old values before, and the new ones after.
fn push_steps(
    steps: &mut Vec<bool>,
    rows: &UdpRows,
    old: &[Value],
    new: &[Value],
    taken: &mut [Value],
    state: Value,
) -> Result<(), NoMemory>
    requires old { length old.now ≡ rows.now.inputs }
    requires new { length new.now ≡ rows.now.inputs }
    requires taken { taken.old ≡ old.now }
    requires none { steps.old.items ≡ [] }
    ensures { OnOk result (AreSteps rows.now old.now new.now state steps.new.items) }
{
    for input in 0..old.len() {
        steps.push(is_step(rows, old, new, taken, state, input))?;
    }
    Ok(())
}

// Of each input whether it is a step.
fn steps_of(
    alloc: Global,
    rows: &UdpRows,
    old: &[Value],
    new: &[Value],
    state: Value,
) -> Result<Vec<bool>, NoMemory>
    requires old { length old.now ≡ rows.now.inputs }
    requires new { length new.now ≡ rows.now.inputs }
    ensures { IfOk result (λ steps. AreSteps rows.now old.now new.now state steps.items) }
{
    let mut taken = Vec::from_slice(alloc, old)?;
    let mut steps = Vec::new(alloc);
    push_steps(&mut steps, rows, old, new, &mut taken, state)?;
    Ok(steps)
}

// The last event of an input before a limit, if it is at a time.
fn last_at(trace: &Trace<'_>, limit: u64, time: u64, input: usize, net: NetId) -> Option<Candidate>
    requires { net < length trace.now.first }
    ensures { result ≡ last_of_input_at trace.now limit time (input, net) }
{
    let last = last_of(trace, limit, input, net)?;
    if last.event.time == time {
        Some(last)
    } else {
        None
    }
}

// A candidate, where a test holds.
fn kept_if(test: bool, candidate: Option<Candidate>) -> Option<Candidate>
    ensures { result ≡ (if test then candidate else None) }
{
    if test { candidate } else { None }
}

// What was found, else what was kept.
fn found_or(kept: Option<Candidate>, found: Option<Candidate>) -> Option<Candidate>
    ensures { result ≡ last_or kept (cons_option found []) }
{
    match found {
        Some(found) => Some(found),
        None => kept,
    }
}

// Of the inputs whose last event before a limit is at a time the last that is a step, else the last.
fn last_of_steps(
    trace: &Trace<'_>,
    inputs: &[NetId],
    steps: &[bool],
    limit: u64,
    time: u64,
) -> Option<Candidate>
    requires nets { All (λ n. n < length trace.now.first) inputs.now }
    requires steps { length steps.now ≡ length inputs.now }
    ensures { result ≡ last_by steps.now (filter_map (last_of_input_at trace.now limit time) (enumerate_from 0 inputs.now)) }
{
    let mut last = None;
    let mut stepped = None;
    for (input, net) in inputs.iter().enumerate() {
        let found = last_at(trace, limit, time, input, *net);
        last = found_or(last, found);
        stepped = found_or(stepped, kept_if(steps[input], found));
    }
    found_or(last, stepped)
}

/// Of the inputs of a sequential primitive that changed last before a limit, taken in order, the last that changed the state; where
/// none did, the last.
pub(crate) fn last_step(
    alloc: Global,
    trace: &Trace<'_>,
    rows: &UdpRows,
    inputs: &[NetId],
    state: Value,
    limit: u64,
) -> Result<Option<Candidate>, NoMemory>
    requires nets { All (λ n. n < length trace.now.first) inputs.now }
    requires inputs { length inputs.now ≡ rows.now.inputs }
    ensures { IfOk result (λ found. found ≡ last_step_of trace.now rows.now inputs.now state (latest (last_of_each trace.now limit (enumerate_from 0 inputs.now)))) }
{
    let Some(first) = latest_of_each(trace, limit, inputs) else {
        return Ok(None);
    };
    let time = first.event.time;
    let old = values_before(alloc, trace, inputs, time)?;
    let new = values_before(alloc, trace, inputs, time + 1)?;
    let steps = steps_of(alloc, rows, &old, &new, state)?;
    Ok(last_of_steps(trace, inputs, &steps, limit, time))
}
