// The lines of single events.
ghost use Rattle.std.specs.Prelude.{◌≡◌, ◌++◌, ◌∷◌, [], OnOk, codes, decimal, slice_index_or};
ghost use Rattle.sg_circuit.specs.Circuit.{element_at};
ghost use Rattle.sg_circuit.specs.Seen.{kind_seen};
ghost use Rattle.sg_circuit.specs.declared.circuits.Parts.{Parts};
ghost use Rattle.wave_out.specs.Texts.{line};
ghost use Rattle.wave_out.specs.Vcd.{value_letter};
ghost use Rattle.why_causes.specs.Waveform.{event_at};
ghost use Rattle.why_text.specs.Lines.{again_line, constant_line, drives_constant, event_front, first_line, front, input_at, set_line, start_line, through_line};
ghost use Rattle.why_text.specs.Pins.{way_text};

use crate::pins::{place_of, push_instance, push_way};
use run_report::push_net;
use sg_circuit::{Circuit, ElementKind, NetId};
use sg_logic::Value;
use std::alloc::{AllocError, Global};
use wave_out::push_number;
use why_causes::{Event, Link, Trace};

fn letter_of(value: Value) -> u8
    ensures { result ≡ value_letter value }
{
    match value {
        Value::Zero => b'0',
        Value::One => b'1',
        Value::X => b'x',
        Value::Z => b'z',
    }
}

/// Adds when a net took a value.
pub fn push_front(
    alloc: Global,
    text: &mut Vec<u8>,
    circuit: &Circuit,
    time: u64,
    net: NetId,
    value: Value,
) -> Result<(), AllocError>
    ensures { OnOk result (text.new.items ≡ text.old.items ++ front circuit.now time net value) }
{
    push_number(text, time)?;
    text.push(b' ')?;
    push_net(alloc, text, circuit, net)?;
    text.push(b' ')?;
    text.push(letter_of(value))?;
    Ok(())
}

/// Adds when an event was, of which net and to which value.
pub fn push_event(
    alloc: Global,
    text: &mut Vec<u8>,
    circuit: &Circuit,
    event: Event,
) -> Result<(), AllocError>
    ensures { OnOk result (text.new.items ≡ text.old.items ++ event_front circuit.now event) }
{
    push_front(alloc, text, circuit, event.time, event.net, event.value)
}

/// The event of a number; past the end a blank.
pub fn event_of(trace: &Trace<'_>, number: u32) -> Event
    ensures { result ≡ event_at trace.now number }
{
    if number < trace.events() {
        return trace.event(number);
    }
    Event {
        time: 0,
        net: 0,
        value: Value::X,
    }
}

/// Adds the line of an event with its cause.
pub fn push_through(
    alloc: Global,
    text: &mut Vec<u8>,
    circuit: &Circuit,
    trace: &Trace<'_>,
    event: Event,
    link: Link,
) -> Result<(), AllocError>
    ensures { OnOk result (text.new.items ≡ text.old.items ++ through_line circuit.now trace.now event link) }
{
    push_event(alloc, text, circuit, event)?;
    text.extend_from_slice(b" through ")?;
    push_way(
        alloc,
        text,
        circuit,
        link.element,
        event_of(trace, link.event).net,
    )?;
    text.extend_from_slice(b" delay ")?;
    push_number(text, link.delay)?;
    text.push(b'\n')?;
    Ok(())
}

/// Adds the line of an event that stands in the chain already.
pub fn push_again(
    alloc: Global,
    text: &mut Vec<u8>,
    circuit: &Circuit,
    event: Event,
) -> Result<(), AllocError>
    ensures { OnOk result (text.new.items ≡ text.old.items ++ again_line circuit.now event) }
{
    push_event(alloc, text, circuit, event)?;
    text.extend_from_slice(b" .. again\n")
}

/// The net of an element's input.
pub fn input_of(circuit: &Circuit, element: u32, input: usize) -> NetId
    ensures { result ≡ input_at (element_at circuit.now element) input }
{
    match circuit.parts().elements.get(element as usize) {
        Some(element) => net_at(&element.inputs, input),
        None => 0,
    }
}

fn net_at(nets: &[NetId], place: usize) -> NetId
    ensures { result ≡ slice_index_or nets.now place 0 }
{
    match nets.get(place) {
        Some(net) => *net,
        None => 0,
    }
}

/// Adds the line of an event for which an input was x from the start.
pub fn push_never_set(
    alloc: Global,
    text: &mut Vec<u8>,
    circuit: &Circuit,
    event: Event,
    element: u32,
    input: usize,
) -> Result<(), AllocError>
    ensures { OnOk result (text.new.items ≡ text.old.items ++ line (event_front circuit.now event ++ codes " through " ++ way_text circuit.now (element_at circuit.now element) (input_at (element_at circuit.now element) input) ++ codes " never set")) }
{
    push_event(alloc, text, circuit, event)?;
    text.extend_from_slice(b" through ")?;
    push_way(
        alloc,
        text,
        circuit,
        element,
        input_of(circuit, element, input),
    )?;
    text.extend_from_slice(b" never set\n")
}

// Whether an element drives a constant.
fn is_constant(circuit: &Circuit, element: u32) -> bool
    ensures { result ≡ drives_constant (element_at circuit.now element).kind }
{
    match circuit.parts().elements.get(element as usize) {
        Some(element) => is_constant_kind(element.kind),
        None => false,
    }
}

fn is_constant_kind(kind: ElementKind) -> bool
    ensures { (parts : Parts) → result ≡ drives_constant (kind_seen parts kind) }
{
    matches!(kind, ElementKind::Pass { constant: Some(_) })
}

/// Adds the line of an event that the stimulus sets.
pub fn push_set(
    alloc: Global,
    text: &mut Vec<u8>,
    circuit: &Circuit,
    event: Event,
) -> Result<(), AllocError>
    ensures { OnOk result (text.new.items ≡ text.old.items ++ set_line circuit.now event) }
{
    push_event(alloc, text, circuit, event)?;
    text.extend_from_slice(b" set by the stimulus\n")
}

/// Adds the line of an event that comes before any input changed.
pub fn push_start(
    alloc: Global,
    text: &mut Vec<u8>,
    circuit: &Circuit,
    event: Event,
) -> Result<(), AllocError>
    ensures { OnOk result (text.new.items ≡ text.old.items ++ start_line circuit.now event) }
{
    push_event(alloc, text, circuit, event)?;
    text.extend_from_slice(b" from the start\n")?;
    Ok(())
}

// Adds the line of an event of a constant that an element drives.
fn push_constant(
    alloc: Global,
    text: &mut Vec<u8>,
    circuit: &Circuit,
    event: Event,
    element: u32,
) -> Result<(), AllocError>
    ensures { OnOk result (text.new.items ≡ text.old.items ++ constant_line circuit.now event (element_at circuit.now element)) }
{
    push_event(alloc, text, circuit, event)?;
    text.extend_from_slice(b" constant in ")?;
    push_instance(alloc, text, circuit, place_of(circuit, element).0)?;
    text.push(b'\n')?;
    Ok(())
}

/// Adds the line of an event of an element's output that no other event caused.
pub fn push_first(
    alloc: Global,
    text: &mut Vec<u8>,
    circuit: &Circuit,
    event: Event,
    element: u32,
) -> Result<(), AllocError>
    ensures { OnOk result (text.new.items ≡ text.old.items ++ first_line circuit.now event (element_at circuit.now element)) }
{
    if is_constant(circuit, element) {
        return push_constant(alloc, text, circuit, event, element);
    }
    push_start(alloc, text, circuit, event)
}
