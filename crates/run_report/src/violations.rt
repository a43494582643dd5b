// The lines of violations.
ghost use Rattle.std.specs.Prelude.{◌≡◌, ◌++◌, OnOk, codes, decimal, flat_map, map, max};
ghost use Rattle.time_checks.specs.Parts.{part_number};
ghost use Rattle.time_checks.specs.Seen.{violation_seen};
ghost use Rattle.run_report.specs.Report.{check_at, datum_of, event_text, part_word, path_of, terminal_text, violation_line};

use crate::bits::push_bit;
use crate::paths::push_path;
use sg_circuit::{Check, Circuit, Terminal};
use std::alloc::{AllocError, Global};
use time_checks::{Part, Violation};
use wave_out::{push_number, push_signed};

/// The word of a part.
pub fn word_of(part: Part) -> &'static str
    ensures { result.now ≡ part_word (part_number part) }
{
    match part {
        Part::Setup => "setup",
        Part::Hold => "hold",
        Part::Recovery => "recovery",
        Part::Removal => "removal",
        Part::Width => "width",
        Part::Period => "period",
        Part::Skew => "skew",
    }
}

/// Adds a terminal's name, with its bit.
pub fn push_terminal(text: &mut Vec<u8>, terminal: &Terminal) -> Result<(), AllocError>
    ensures { OnOk result (text.new.items ≡ text.old.items ++ terminal_text terminal.now) }
{
    text.extend_from_slice(terminal.name.bytes())?;
    push_bit(text, terminal.bit)
}

// A blank and a time.
fn push_time(text: &mut Vec<u8>, time: u64) -> Result<(), AllocError>
    ensures { OnOk result (text.new.items ≡ text.old.items ++ (codes " " ++ decimal time)) }
{
    text.push(b' ')?;
    push_number(text, time)
}

fn push_event(text: &mut Vec<u8>, terminal: &Terminal, time: u64) -> Result<(), AllocError>
    ensures { OnOk result (text.new.items ≡ text.old.items ++ event_text terminal.now time) }
{
    push_terminal(text, terminal)?;
    push_time(text, time)
}

/// The terminal of a check's data event: for width and period that of its one event.
pub fn datum_of(check: &Check) -> &Terminal
    ensures { result.now ≡ datum_of check.now }
{
    match &check.datum {
        Some(datum) => datum,
        None => &check.refer,
    }
}

/// Adds the path of a check's scope.
pub fn push_check_scope(
    alloc: Global,
    text: &mut Vec<u8>,
    circuit: &Circuit,
    check: u32,
) -> Result<(), AllocError>
    ensures { OnOk result (text.new.items ≡ text.old.items ++ path_of circuit.now (check_at circuit.now check).scope) }
{
    match circuit.parts().checks.get(check as usize) {
        Some(check) => push_path(alloc, text, circuit, check.scope),
        None => push_path(alloc, text, circuit, 0),
    }
}

fn push_refer(
    text: &mut Vec<u8>,
    circuit: &Circuit,
    check: u32,
    time: u64,
) -> Result<(), AllocError>
    ensures { OnOk result (text.new.items ≡ text.old.items ++ event_text (check_at circuit.now check).refer time) }
{
    match circuit.parts().checks.get(check as usize) {
        Some(check) => push_event(text, &check.refer, time),
        None => push_time(text, time),
    }
}

fn push_datum(
    text: &mut Vec<u8>,
    circuit: &Circuit,
    check: u32,
    time: u64,
) -> Result<(), AllocError>
    ensures { OnOk result (text.new.items ≡ text.old.items ++ event_text (datum_of (check_at circuit.now check)) time) }
{
    match circuit.parts().checks.get(check as usize) {
        Some(check) => push_event(text, datum_of(check), time),
        None => push_time(text, time),
    }
}

// The later of the two times, the scope and the word of the part.
fn push_part(
    alloc: Global,
    text: &mut Vec<u8>,
    circuit: &Circuit,
    violation: &Violation,
) -> Result<(), AllocError>
    ensures { OnOk result (text.new.items ≡ text.old.items ++ (codes "violation " ++ decimal (max violation.now.refer_time violation.now.datum_time) ++ codes " " ++ path_of circuit.now (check_at circuit.now violation.now.check).scope ++ codes " " ++ part_word (part_number violation.now.part))) }
{
    text.extend_from_slice(b"violation ")?;
    push_number(text, violation.refer_time.max(violation.datum_time))?;
    text.push(b' ')?;
    push_check_scope(alloc, text, circuit, violation.check)?;
    text.push(b' ')?;
    text.extend_from_slice(word_of(violation.part).as_bytes())?;
    Ok(())
}

/// Adds the line of a violation.
pub fn push_violation(
    alloc: Global,
    text: &mut Vec<u8>,
    circuit: &Circuit,
    violation: &Violation,
) -> Result<(), AllocError>
    ensures { OnOk result (text.new.items ≡ text.old.items ++ violation_line circuit.now (violation_seen violation.now)) }
{
    push_part(alloc, text, circuit, violation)?;
    text.push(b' ')?;
    push_refer(text, circuit, violation.check, violation.refer_time)?;
    text.push(b' ')?;
    push_datum(text, circuit, violation.check, violation.datum_time)?;
    text.extend_from_slice(b" limit ")?;
    push_signed(text, violation.limit)?;
    text.push(b'\n')?;
    Ok(())
}

/// Adds a line for each violation.
pub fn push_violations(
    alloc: Global,
    text: &mut Vec<u8>,
    circuit: &Circuit,
    violations: &[Violation],
) -> Result<(), AllocError>
    ensures { OnOk result (text.new.items ≡ text.old.items ++ flat_map (violation_line circuit.now) (map (λ v. violation_seen v) violations.now)) }
{
    for violation in violations {
        push_violation(alloc, text, circuit, violation)?;
    }
    Ok(())
}
