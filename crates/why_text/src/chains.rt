// The lines of chains.
ghost use Rattle.std.specs.Prelude.{◌≡◌, ◌++◌, OnOk, map};
ghost use Rattle.time_checks.specs.Seen.{violation_seen};
ghost use Rattle.sg_circuit.specs.Circuit.{net_at};
ghost use Rattle.why_causes.specs.Waveform.{event_at};
ghost use Rattle.why_text.specs.Lines.{chain_lines, driven_line, last_lines};

use crate::lines::{
    event_of, push_again, push_first, push_never_set, push_set, push_start, push_through,
};
use crate::toggles::push_toggled;
use sg_circuit::{Circuit, Driver, NetId};
use std::alloc::{AllocError, Global};
use time_checks::Violation;
use why_causes::{Cause, Event, Link, Trace};

fn driver_of(circuit: &Circuit, net: NetId) -> Driver
    ensures { result ≡ (net_at circuit.now net).driver }
{
    match circuit.parts().nets.get(net as usize) {
        Some(net) => net.driver,
        None => Driver::Nobody,
    }
}

// An event that no other caused.
fn push_driven(
    alloc: Global,
    text: &mut Vec<u8>,
    circuit: &Circuit,
    violations: &[Violation],
    event: Event,
) -> Result<(), AllocError>
    ensures { OnOk result (text.new.items ≡ text.old.items ++ driven_line circuit.now (map (λ v. violation_seen v) violations.now) event (net_at circuit.now event.net).driver) }
{
    match driver_of(circuit, event.net) {
        Driver::Nobody => push_start(alloc, text, circuit, event),
        Driver::Stimulus => push_set(alloc, text, circuit, event),
        Driver::Element(element) => push_first(alloc, text, circuit, event, element),
        Driver::Notifier => push_toggled(alloc, text, circuit, violations, event),
    }
}

// The last event of a chain, by its cause.
fn push_last(
    alloc: Global,
    text: &mut Vec<u8>,
    circuit: &Circuit,
    trace: &Trace<'_>,
    violations: &[Violation],
    event: Event,
    end: Cause,
) -> Result<(), AllocError>
    ensures { OnOk result (text.new.items ≡ text.old.items ++ last_lines circuit.now trace.now (map (λ v. violation_seen v) violations.now) event end) }
{
    match end {
        Cause::Nothing => push_driven(alloc, text, circuit, violations, event),
        Cause::NeverSet { element, input } => {
            push_never_set(alloc, text, circuit, event, element, input)
        }
        Cause::Linked(link) => {
            push_through(alloc, text, circuit, trace, event, link)?;
            push_again(alloc, text, circuit, event_of(trace, link.event))
        }
    }
}

/// Adds the lines of a chain.
pub fn push_chain(
    alloc: Global,
    text: &mut Vec<u8>,
    circuit: &Circuit,
    trace: &Trace<'_>,
    violations: &[Violation],
    event: u32,
    links: &[Link],
    end: Cause,
) -> Result<(), AllocError>
    ensures { OnOk result (text.new.items ≡ text.old.items ++ chain_lines circuit.now trace.now (map (λ v. violation_seen v) violations.now) event links.now end) }
{
    let mut last = event;
    for link in links {
        push_through(alloc, text, circuit, trace, event_of(trace, last), *link)?;
        last = link.event;
    }
    push_last(
        alloc,
        text,
        circuit,
        trace,
        violations,
        event_of(trace, last),
        end,
    )
}
