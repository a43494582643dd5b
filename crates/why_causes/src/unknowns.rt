// Where an x comes from: inputs that are x too.
ghost use Rattle.std.specs.Prelude.{◌≡◌, ◌<◌, ◌^◌, ◌+◌, ◌&&◌, All, filter, if◌then◌else◌, None, is_none, length, position};
ghost use Rattle.std.specs.List.{enumerate_from};
ghost use Rattle.sg_logic.specs.Values.{is_same};
ghost use Rattle.sg_logic.specs.declared.values.Value.TheVariants.{X};
ghost use Rattle.sg_circuit.specs.Seen.{circuit_seen};
ghost use Rattle.why_causes.specs.Waveform.{last_before};
ghost use Rattle.why_causes.specs.Candidates.{last_of as last_of_input};
ghost use Rattle.why_causes.specs.Causes.{became_first as first_unknown, by_unknown_inputs as by_unknown_inputs_of, is_notifier, unknown_inputs};
ghost use Rattle.why_causes.specs.Unknowns.{is_unknown_among, net_of};
ghost use Rattle.why_causes.specs.declared.links.Cause.TheVariants.{Nothing};
ghost use Rattle.why_causes.specs.Best.{earlier_of};

use crate::changes::{Candidate, Change};
use crate::inputs::last_of;
use crate::links::{Cause, Rule, found};
use crate::traces::Trace;
use sg_circuit::{Driver, Net, NetId, Parts};
use sg_logic::Value;

// Whether a net is a notifier that no violation toggled up to a time.
fn is_idle(nets: &[Net], trace: &Trace<'_>, time: u64, net: NetId) -> bool
    requires nets { length nets.now ≡ length trace.now.first }
    requires net { net < length trace.now.first }
    requires time { time < 2 ^ 60 }
    ensures { result ≡ (is_notifier (net_of nets.now net).driver && is_none (last_before trace.now net (time + 1))) }
{
    matches!(nets[net as usize].driver, Driver::Notifier)
        && trace.last_before(net, time + 1).is_none()
}

// Whether a net is x at a time, and no such notifier.
fn is_unknown(nets: &[Net], trace: &Trace<'_>, time: u64, net: NetId) -> bool
    requires nets { length nets.now ≡ length trace.now.first }
    requires net { net < length trace.now.first }
    requires time { time < 2 ^ 60 }
    ensures { result ≡ is_unknown_among nets.now trace.now time net }
{
    trace.value_before(net, time + 1) == Value::X && !is_idle(nets, trace, time, net)
}

// Whether it is, and was so from the start.
fn is_never_set(nets: &[Net], trace: &Trace<'_>, time: u64, net: NetId) -> bool
    requires nets { length nets.now ≡ length trace.now.first }
    requires net { net < length trace.now.first }
    requires time { time < 2 ^ 60 }
    ensures { result ≡ (is_unknown_among nets.now trace.now time net && is_none (last_before trace.now net (time + 1))) }
{
    is_unknown(nets, trace, time, net) && trace.last_before(net, time + 1).is_none()
}

// The first of the inputs that are x from the start up to a time.
fn never_set(nets: &[Net], trace: &Trace<'_>, time: u64, inputs: &[NetId]) -> Option<usize>
    requires nets { length nets.now ≡ length trace.now.first }
    requires inputs { All (λ n. n < length trace.now.first) inputs.now }
    requires time { time < 2 ^ 60 }
    ensures { result ≡ position (λ n. is_unknown_among nets.now trace.now time n && is_none (last_before trace.now n (time + 1))) inputs.now }
{
    inputs
        .iter()
        .position(|net| is_never_set(nets, trace, time, *net))
}

// The event that made an input x, which it is at a time.
fn unknown_since(
    nets: &[Net],
    trace: &Trace<'_>,
    time: u64,
    input: usize,
    net: NetId,
) -> Option<Candidate>
    requires nets { length nets.now ≡ length trace.now.first }
    requires net { net < length trace.now.first }
    requires time { time < 2 ^ 60 }
    ensures { result ≡ (if is_unknown_among nets.now trace.now time net then last_of_input trace.now (time + 1) (input, net) else None) }
{
    if !is_unknown(nets, trace, time, net) {
        return None;
    }
    last_of(trace, time + 1, input, net)
}

// The earlier of two; the first, where neither is.
fn earlier(best: Option<Candidate>, other: Option<Candidate>) -> Option<Candidate>
    ensures { result ≡ earlier_of best other }
{
    match (best, other) {
        (None, _) => other,
        (Some(kept), Some(new)) if new.event.time < kept.event.time => other,
        _ => best,
    }
}

// Of the inputs that are x at a time, and were not from the start, the one that became so first.
fn became_first(nets: &[Net], trace: &Trace<'_>, time: u64, inputs: &[NetId]) -> Option<Candidate>
    requires nets { length nets.now ≡ length trace.now.first }
    requires inputs { All (λ n. n < length trace.now.first) inputs.now }
    requires time { time < 2 ^ 60 }
    ensures { result ≡ first_unknown trace.now time (filter (λ i. is_unknown_among nets.now trace.now time i.1) (enumerate_from 0 inputs.now)) }
{
    let mut best = None;
    for (input, net) in inputs.iter().enumerate() {
        best = earlier(best, unknown_since(nets, trace, time, input, *net));
    }
    best
}

// Of an element's inputs the first that was x from the start, else the one that became so first.
fn by_unknown_inputs(
    nets: &[Net],
    trace: &Trace<'_>,
    element: u32,
    inputs: &[NetId],
    change: Change,
) -> Cause
    requires nets { length nets.now ≡ length trace.now.first }
    requires inputs { All (λ n. n < length trace.now.first) inputs.now }
    requires time { change.time < 2 ^ 60 }
    ensures { result ≡ by_unknown_inputs_of trace.now element change (filter (λ i. is_unknown_among nets.now trace.now change.time i.1) (enumerate_from 0 inputs.now)) }
{
    match never_set(nets, trace, change.time, inputs) {
        Some(input) => Cause::NeverSet { element, input },
        None => {
            let first = became_first(nets, trace, change.time, inputs);
            found(element, change, Rule::Unknown, first)
        }
    }
}

// Whether a value is x.
fn is_x(value: Value) -> bool
    ensures { result ≡ is_same value X }
{
    value == Value::X
}

/// What made an element's output x: inputs that are x too.
pub(crate) fn by_unknown(
    parts: &Parts,
    trace: &Trace<'_>,
    element: u32,
    inputs: &[NetId],
    change: Change,
) -> Cause
    requires nets { length parts.now.nets.items ≡ length trace.now.first }
    requires inputs { All (λ n. n < length trace.now.first) inputs.now }
    requires time { change.time < 2 ^ 60 }
    ensures { result ≡ (if is_same change.to X then by_unknown_inputs_of trace.now element change (unknown_inputs (circuit_seen parts.now) trace.now change.time (enumerate_from 0 inputs.now)) else Nothing) }
{
    if !is_x(change.to) {
        return Cause::Nothing;
    }
    by_unknown_inputs(&parts.nets, trace, element, inputs, change)
}
