// What is told of a net at a time.
ghost use Rattle.std.specs.Prelude.{◌≡◌, ◌+◌, ◌<◌, ◌^◌, IfOk, [], length, map};
ghost use Rattle.time_checks.specs.Seen.{violation_seen};
ghost use Rattle.why_text.specs.Lines.{unchanged_line};
ghost use Rattle.why_text.specs.Told.{chain_events, IsTold, IsToldChain};

use crate::chains::push_chain;
use crate::lines::push_front;
use sg_circuit::{Circuit, NetId};
use sg_text::NoMemory;
use std::alloc::Global;
use time_checks::Violation;
use why_causes::{Link, Trace, chain};

/// The chain of causes of an event: the numbers of its events, the latest first, and its lines.
#[derive(Debug, Drop)]
pub struct Told {
    pub events: Vec<u32>,
    pub text: Vec<u8>,
}

// The events of a chain.
fn events_of(alloc: Global, event: u32, links: &[Link]) -> Result<Vec<u32>, NoMemory>
    ensures { IfOk result (λ events. events.items ≡ chain_events event links.now) }
{
    let mut events = Vec::new(alloc);
    events.push(event)?;
    for link in links {
        events.push(link.event)?;
    }
    Ok(events)
}

// The chain of the event of a number.
fn chain_of(
    alloc: Global,
    circuit: &Circuit,
    trace: &Trace<'_>,
    violations: &[Violation],
    event: u32,
) -> Result<Told, NoMemory>
    requires nets { length trace.now.first ≡ length circuit.now.nets }
    requires event { event < length trace.now.events }
    ensures { IfOk result (λ told. IsToldChain circuit.now trace.now (map (λ v. violation_seen v) violations.now) event told.events.items told.text.items) }
{
    let chain = chain(alloc, circuit, trace, event)?;
    let events = events_of(alloc, event, &chain.links)?;
    let mut text = Vec::new(alloc);
    push_chain(
        alloc,
        &mut text,
        circuit,
        trace,
        violations,
        event,
        &chain.links,
        chain.end,
    )?;
    Ok(Told { events, text })
}

// A net that didn't change up to a time.
fn unchanged(
    alloc: Global,
    circuit: &Circuit,
    trace: &Trace<'_>,
    net: NetId,
    time: u64,
) -> Result<Told, NoMemory>
    requires net { net < length trace.now.first }
    requires time { time < 2 ^ 63 }
    ensures none { IfOk result (λ told. told.events.items ≡ []) }
    ensures text { IfOk result (λ told. told.text.items ≡ unchanged_line circuit.now trace.now net time) }
{
    let mut text = Vec::new(alloc);
    let value = trace.value_before(net, time + 1);
    push_front(alloc, &mut text, circuit, time, net, value)?;
    text.extend_from_slice(b" no change\n")?;
    Ok(Told {
        events: Vec::new(alloc),
        text,
    })
}

/// What is told of a net at a time: the chain of causes of its last change up to then, a line for each event; or that there is no change.
pub fn net_causes(
    alloc: Global,
    circuit: &Circuit,
    trace: &Trace<'_>,
    violations: &[Violation],
    net: NetId,
    time: u64,
) -> Result<Told, NoMemory>
    requires nets { length trace.now.first ≡ length circuit.now.nets }
    requires net { net < length circuit.now.nets }
    requires time { time < 2 ^ 63 }
    ensures { IfOk result (λ told. IsTold circuit.now trace.now (map (λ v. violation_seen v) violations.now) net time told.events.items told.text.items) }
{
    match trace.last_before(net, time + 1) {
        Some((event, _)) => chain_of(alloc, circuit, trace, violations, event),
        None => unchanged(alloc, circuit, trace, net, time),
    }
}
