// The cause of a change: four rules look for one, and the first that finds one decides.
ghost use Rattle.std.specs.Prelude.{◌≡◌, ◌<◌, ◌^◌, All, IfOk, length};
ghost use Rattle.std.specs.Option.{option_copied};
ghost use Rattle.sg_circuit.specs.Closed.{HasDelays, IsClosed, NamesNets};
ghost use Rattle.sg_circuit.specs.Seen.{circuit_seen, element_seen, kind_seen, AreIndexed, IsIndexed};
ghost use Rattle.why_causes.specs.Causes.{by_inputs as by_inputs_of, by_path as by_path_of, cause as cause_of_event, cause_through as cause_through_element};
ghost use Rattle.why_causes.specs.Fitting.{sequential, Fits};
ghost use Rattle.why_causes.specs.Links.{IsWithin};

use crate::changes::Change;
use crate::delays::{delay_of, limit_of};
use crate::inputs::latest_of_each;
use crate::links::{Cause, Rule, found};
use crate::paths::picked_path;
use crate::steps::last_step;
use crate::traces::Trace;
use crate::unknowns::by_unknown;
use sg_circuit::{Circuit, Driver, Element, ElementKind, Parts};
use sg_text::NoMemory;
use std::alloc::Global;
use udp_rows::UdpRows;

// By the path that a change of an element's output came through.
fn by_path(
    parts: &Parts,
    trace: &Trace<'_>,
    number: u32,
    kind: ElementKind,
    change: Change,
) -> Cause
    requires indexed { IsIndexed parts.now kind }
    requires names { NamesNets (length trace.now.first) (kind_seen parts.now kind) }
    requires delays { HasDelays (kind_seen parts.now kind) }
    requires time { change.time < 2 ^ 60 }
    ensures { result ≡ by_path_of trace.now number (kind_seen parts.now kind) change }
{
    match kind {
        ElementKind::Path { paths, .. } => {
            let paths = parts.paths_in(paths);
            let candidate = picked_path(trace, &parts.leg_timings, change, paths);
            found(number, change, Rule::Path, candidate)
        }
        _ => Cause::Nothing,
    }
}

// The rows of a sequential primitive, if a kind is one.
fn sequential_rows(parts: &Parts, kind: ElementKind) -> Option<&UdpRows>
    requires { IsIndexed parts.now kind }
    ensures { option_copied result ≡ sequential (kind_seen parts.now kind) }
{
    let ElementKind::Udp { udp, .. } = kind else {
        return None;
    };
    let rows = &parts.udps[udp as usize].rows;
    if rows.sequential() { Some(rows) } else { None }
}

// By the inputs of an element that changed last.
fn by_inputs(
    alloc: Global,
    parts: &Parts,
    trace: &Trace<'_>,
    number: u32,
    element: &Element,
    change: Change,
) -> Result<Cause, NoMemory>
    requires fits { Fits (length trace.now.first) parts.now element.now }
    requires time { change.time < 2 ^ 60 }
    ensures { IfOk result (λ cause. cause ≡ by_inputs_of trace.now number (element_seen parts.now element.now) (kind_seen parts.now element.now.kind) change) }
{
    let limit = limit_of(delay_of(parts, element.kind, change), change);
    let Some(rows) = sequential_rows(parts, element.kind) else {
        let candidate = latest_of_each(trace, limit, &element.inputs);
        return Ok(found(number, change, Rule::Latest, candidate));
    };
    let candidate = last_step(alloc, trace, rows, &element.inputs, change.from, limit)?;
    Ok(found(number, change, Rule::Step, candidate))
}

// The cause of a change of an element's output.
fn cause_through(
    alloc: Global,
    parts: &Parts,
    trace: &Trace<'_>,
    number: u32,
    change: Change,
) -> Result<Cause, NoMemory>
    requires closed { IsClosed (circuit_seen parts.now) }
    requires indexed { AreIndexed parts.now }
    requires nets { length trace.now.first ≡ length parts.now.nets.items }
    requires number { number < length parts.now.elements.items }
    requires time { change.time < 2 ^ 60 }
    ensures { IfOk result (λ cause. cause ≡ cause_through_element (circuit_seen parts.now) trace.now number change) }
{
    let element = &parts.elements[number as usize];
    let unknown = by_unknown(parts, trace, number, &element.inputs, change);
    if unknown != Cause::Nothing {
        return Ok(unknown);
    }
    let path = by_path(parts, trace, number, element.kind, change);
    if path != Cause::Nothing {
        return Ok(path);
    }
    by_inputs(alloc, parts, trace, number, element, change)
}

/// The cause of an event of a circuit's run. Takes time in proportion to the inputs of the element that drives the net, or its paths,
/// times a logarithm of their events; and memory for the inputs of a sequential primitive.
pub fn cause(
    alloc: Global,
    circuit: &Circuit,
    trace: &Trace<'_>,
    event: u32,
) -> Result<Cause, NoMemory>
    requires nets { length trace.now.first ≡ length circuit.now.nets }
    requires event { event < length trace.now.events }
    ensures cause { IfOk result (λ cause. cause ≡ cause_of_event circuit.now trace.now event) }
    ensures within { IfOk result (λ cause. IsWithin (length trace.now.events) cause) }
{
    let parts = circuit.parts();
    let event = trace.event(event);
    let Driver::Element(number) = parts.nets[event.net as usize].driver else {
        return Ok(Cause::Nothing);
    };
    let change = trace.change_of(event);
    cause_through(alloc, parts, trace, number, change)
}
