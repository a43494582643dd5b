// Violations that toggled a notifier.
ghost use Rattle.std.specs.Prelude.{◌≡◌, ◌+◌, ◌++◌, ◌==◌, OnOk, find, map, max, position};
ghost use Rattle.std.specs.Option.{option_map};
ghost use Rattle.time_checks.specs.Adjusted.{delay_of as delay_of_kind, late_delay};
ghost use Rattle.sg_circuit.specs.Seen.{kind_seen};
ghost use Rattle.sg_circuit.specs.declared.circuits.Parts.{Parts};
ghost use Rattle.run_report.specs.Report.{check_at};
ghost use Rattle.time_checks.specs.Seen.{violation_seen};
ghost use Rattle.why_text.specs.Lines.{delay_by, found_time, is_net, timing_at, toggled_line, toggles};

use crate::lines::push_event;
use run_report::push_violation;
use sg_circuit::{Circuit, ElementKind, NetId};
use std::alloc::{AllocError, Global};
use time_checks::Violation;
use why_causes::Event;

// How late a delayed copy is.
fn late_delay(circuit: &Circuit, late: u32) -> u64
    ensures { result ≡ late_delay circuit.now late }
{
    match circuit.parts().elements.get(late as usize) {
        Some(element) => delay_of(element.kind),
        None => 0,
    }
}

fn delay_of(kind: ElementKind) -> u64
    ensures { (parts : Parts) → result ≡ delay_of_kind (kind_seen parts kind) }
{
    match kind {
        ElementKind::Late { delay } => delay,
        _ => 0,
    }
}

// The delayed copies of a check's signals, if it has some.
fn lates_of(circuit: &Circuit, check: u32) -> Option<[u32; 2]>
    ensures { result ≡ (timing_at circuit.now check).late }
{
    circuit.parts().check_timings.get(check as usize)?.late
}

// How late a check sees its reference and its data.
fn delays_of(circuit: &Circuit, check: u32) -> (u64, u64)
    ensures refer { result.0 ≡ delay_by circuit.now 0 (timing_at circuit.now check).late }
    ensures datum { result.1 ≡ delay_by circuit.now 1 (timing_at circuit.now check).late }
{
    match lates_of(circuit, check) {
        Some(lates) => {
            let [refer, datum] = lates;
            (late_delay(circuit, refer), late_delay(circuit, datum))
        }
        None => (0, 0),
    }
}

// When a violation was found.
fn found_time(circuit: &Circuit, violation: &Violation) -> u128
    ensures { result ≡ found_time circuit.now (violation_seen violation.now) }
{
    let (refer_delay, datum_delay) = delays_of(circuit, violation.check);
    let refer = violation.refer_time as u128 + refer_delay as u128;
    let datum = violation.datum_time as u128 + datum_delay as u128;
    refer.max(datum)
}

fn notifier_of(circuit: &Circuit, check: u32) -> Option<NetId>
    ensures { result ≡ (check_at circuit.now check).notifier }
{
    circuit.parts().checks.get(check as usize)?.notifier
}

fn is_net(net: NetId, notifier: Option<NetId>) -> bool
    ensures { result ≡ is_net net notifier }
{
    match notifier {
        Some(notifier) => notifier == net,
        None => false,
    }
}

fn toggles(circuit: &Circuit, event: Event, violation: &Violation) -> bool
    ensures { result ≡ toggles circuit.now event (violation_seen violation.now) }
{
    is_net(event.net, notifier_of(circuit, violation.check))
        && found_time(circuit, violation) == event.time as u128
}

// The place of the first violation that toggled a notifier.
fn first_toggling(circuit: &Circuit, violations: &[Violation], event: Event) -> Option<usize>
    ensures { result ≡ position (λ v. toggles circuit.now event (violation_seen v)) violations.now }
{
    violations
        .iter()
        .position(|violation| toggles(circuit, event, violation))
}

/// Adds the line of an event of a notifier, with that of the violation.
pub fn push_toggled(
    alloc: Global,
    text: &mut Vec<u8>,
    circuit: &Circuit,
    violations: &[Violation],
    event: Event,
) -> Result<(), AllocError>
    ensures { OnOk result (text.new.items ≡ text.old.items ++ toggled_line circuit.now event (find (toggles circuit.now event) (map (λ v. violation_seen v) violations.now))) }
{
    push_event(alloc, text, circuit, event)?;
    match first_toggling(circuit, violations, event) {
        Some(place) => {
            text.extend_from_slice(b" toggled by ")?;
            push_violation(alloc, text, circuit, &violations[place])
        }
        None => {
            text.extend_from_slice(b" toggled\n")?;
            Ok(())
        }
    }
}
