// What is told of a violation.
ghost use Rattle.std.specs.Prelude.{◌≡◌, ◌-◌, ◌==◌, ◌++◌, ◌<◌, ◌^◌, ◌-ℤ◌, pos, IfOk, OnOk, codes, decimal, length, map};
ghost use Rattle.std.specs.Fmt.{signed_decimal};
ghost use Rattle.sg_circuit.specs.Closed.{IsClosed};
ghost use Rattle.wave_out.specs.Texts.{line};
ghost use Rattle.time_checks.specs.Seen.{violation_seen};
ghost use Rattle.why_text.specs.Lines.{timing_at};
ghost use Rattle.why_text.specs.Parting.{begin, datum_net, event_on, part_line, parting, parting_lines, refer_net, shortage, starts, sums, IsToldViolation};

use crate::lines::event_of;
use crate::told::net_causes;
use itoa::Buffer;
use run_report::push_net;
use sg_circuit::{Circuit, NetId};
use sg_text::NoMemory;
use std::alloc::{AllocError, Global};
use time_checks::{Part, Violation};
use wave_out::push_number;
use why_causes::{Event, Trace};

// The nets of a check's reference and data.
fn nets_of(circuit: &Circuit, violation: &Violation) -> (NetId, NetId)
    ensures closed { IsClosed circuit.now }
    ensures refer { result.0 ≡ refer_net circuit.now (violation_seen violation.now) }
    ensures datum { result.1 ≡ datum_net circuit.now (violation_seen violation.now) }
{
    let Some(timing) = circuit.parts().check_timings.get(violation.check as usize) else {
        return (0, 0);
    };
    match &timing.datum {
        Some(datum) => (timing.refer.net, datum.net),
        None => (timing.refer.net, timing.refer.net),
    }
}

/// The nets of a violation's reference and data.
pub fn check_nets(circuit: &Circuit, violation: &Violation) -> (NetId, NetId)
    requires check { violation.now.check < length circuit.now.check_timings }
    ensures refer { result.0 ≡ refer_net circuit.now (violation_seen violation.now) }
    ensures datum { result.1 ≡ datum_net circuit.now (violation_seen violation.now) }
    ensures refer_within { result.0 < length circuit.now.nets }
    ensures datum_within { result.1 < length circuit.now.nets }
{
    nets_of(circuit, violation)
}

// The first event of a chain, from its end backwards, that is one of a net.
fn event_on(trace: &Trace<'_>, events: &[u32], net: NetId) -> Option<Event>
    ensures { result ≡ event_on trace.now events.now net }
{
    for number in events {
        let event = event_of(trace, *number);
        if event.net == net {
            return Some(event);
        }
    }
    None
}

// Where two chains part: the event of each.
fn parting(trace: &Trace<'_>, data_events: &[u32], refer_events: &[u32]) -> Option<(Event, Event)>
    ensures { result ≡ parting trace.now data_events.now refer_events.now }
{
    for number in data_events {
        let event = event_of(trace, *number);
        if let Some(other) = event_on(trace, refer_events, event.net) {
            return Some((event, other));
        }
    }
    None
}

// When a chain begins; where it has no event at its end.
fn begin(trace: &Trace<'_>, events: &[u32], time: u64) -> u64
    ensures { result ≡ begin trace.now events.now time }
{
    match events.last() {
        Some(number) => event_of(trace, *number).time,
        None => time,
    }
}

// The times of data and reference from which both are counted.
fn starts(
    trace: &Trace<'_>,
    violation: &Violation,
    data_events: &[u32],
    refer_events: &[u32],
    both: Option<(Event, Event)>,
) -> (u64, u64)
    ensures { result ≡ starts trace.now (violation_seen violation.now) data_events.now refer_events.now both }
{
    match both {
        Some((data, refer)) => (data.time, refer.time),
        None => (
            begin(trace, data_events, violation.datum_time),
            begin(trace, refer_events, violation.refer_time),
        ),
    }
}

fn difference(from: u64, to: u64) -> i128
    ensures { result ≡ pos to -ℤ pos from }
{
    to as i128 - from as i128
}

// How much the distance from a first event to a second one falls short of a limit.
fn missing(limit: i64, first: u64, second: u64) -> i128
    ensures { result ≡ limit -ℤ (pos second -ℤ pos first) }
{
    limit as i128 - (second as i128 - first as i128)
}

// How much it is more.
fn excess(limit: i64, first: u64, second: u64) -> i128
    ensures { result ≡ (pos second -ℤ pos first) -ℤ limit }
{
    (second as i128 - first as i128) - limit as i128
}

// How much the distance of the events of a part falls short of its limit; of skew, how much it is more.
fn shortage(violation: &Violation) -> i128
    ensures { result ≡ shortage (violation_seen violation.now) }
{
    let (refer, datum) = (violation.refer_time, violation.datum_time);
    match violation.part {
        Part::Setup => missing(violation.limit, datum, refer),
        Part::Removal => missing(violation.limit, datum, refer),
        Part::Skew => excess(violation.limit, refer, datum),
        Part::Hold => missing(violation.limit, refer, datum),
        Part::Recovery => missing(violation.limit, refer, datum),
        Part::Width => missing(violation.limit, refer, datum),
        Part::Period => missing(violation.limit, refer, datum),
    }
}

// A word and a number, on a line of their own.
fn push_time(text: &mut Vec<u8>, word: &str, time: u64) -> Result<(), AllocError>
    ensures { OnOk result (text.new.items ≡ text.old.items ++ line (word.now ++ decimal time)) }
{
    text.extend_from_slice(word.as_bytes())?;
    push_number(text, time)?;
    text.push(b'\n')?;
    Ok(())
}

fn push_difference(text: &mut Vec<u8>, word: &str, difference: i128) -> Result<(), AllocError>
    ensures { OnOk result (text.new.items ≡ text.old.items ++ line (word.now ++ signed_decimal difference)) }
{
    let mut buffer = Buffer::new();
    text.extend_from_slice(word.as_bytes())?;
    text.extend_from_slice(buffer.format(difference).as_bytes())?;
    text.push(b'\n')?;
    Ok(())
}

// The net where two chains part, with the times of both.
fn push_part(
    alloc: Global,
    text: &mut Vec<u8>,
    circuit: &Circuit,
    both: Option<(Event, Event)>,
) -> Result<(), AllocError>
    ensures { OnOk result (text.new.items ≡ text.old.items ++ part_line circuit.now both) }
{
    let Some((data, refer)) = both else {
        return text.extend_from_slice(b"part none\n");
    };
    text.extend_from_slice(b"part ")?;
    push_net(alloc, text, circuit, data.net)?;
    text.push(b' ')?;
    push_number(text, data.time)?;
    text.push(b' ')?;
    push_number(text, refer.time)?;
    text.push(b'\n')?;
    Ok(())
}

// The times from where both chains part.
fn push_sums(text: &mut Vec<u8>, violation: &Violation, from: (u64, u64)) -> Result<(), AllocError>
    ensures { OnOk result (text.new.items ≡ text.old.items ++ sums (violation_seen violation.now) from) }
{
    push_time(text, "data ", violation.datum_time.saturating_sub(from.0))?;
    push_time(
        text,
        "reference ",
        violation.refer_time.saturating_sub(from.1),
    )?;
    push_difference(text, "apart ", difference(from.0, from.1))?;
    push_difference(text, "short by ", shortage(violation))
}

// What comes behind both chains.
fn push_parting(
    alloc: Global,
    text: &mut Vec<u8>,
    circuit: &Circuit,
    trace: &Trace<'_>,
    violation: &Violation,
    data_events: &[u32],
    refer_events: &[u32],
) -> Result<(), AllocError>
    ensures { OnOk result (text.new.items ≡ text.old.items ++ parting_lines circuit.now trace.now (violation_seen violation.now) data_events.now refer_events.now) }
{
    let both = parting(trace, data_events, refer_events);
    push_part(alloc, text, circuit, both)?;
    push_sums(
        text,
        violation,
        starts(trace, violation, data_events, refer_events, both),
    )
}

/// What is told of a violation of a run: the chains of causes of its data's and its reference's event, where they part, how long both took from
/// there and how far apart they were, and how much is short of the limit.
pub fn violation_causes(
    alloc: Global,
    circuit: &Circuit,
    trace: &Trace<'_>,
    violations: &[Violation],
    violation: &Violation,
) -> Result<Vec<u8>, NoMemory>
    requires nets { length trace.now.first ≡ length circuit.now.nets }
    requires check { violation.now.check < length circuit.now.check_timings }
    requires refer { violation.now.refer_time < 2 ^ 63 }
    requires datum { violation.now.datum_time < 2 ^ 63 }
    ensures { IfOk result (λ text. IsToldViolation circuit.now trace.now (map (λ v. violation_seen v) violations.now) (violation_seen violation.now) text.items) }
{
    let (refer, datum) = check_nets(circuit, violation);
    let data_told = net_causes(
        alloc,
        circuit,
        trace,
        violations,
        datum,
        violation.datum_time,
    )?;
    let refer_told = net_causes(
        alloc,
        circuit,
        trace,
        violations,
        refer,
        violation.refer_time,
    )?;
    let mut text = Vec::new(alloc);
    text.extend_from_slice(b"data\n")?;
    text.extend_from_slice(&data_told.text)?;
    text.extend_from_slice(b"reference\n")?;
    text.extend_from_slice(&refer_told.text)?;
    push_parting(
        alloc,
        &mut text,
        circuit,
        trace,
        violation,
        &data_told.events,
        &refer_told.events,
    )?;
    Ok(text)
}
